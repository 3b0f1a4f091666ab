// What is known within limits.

// The two ends of an interval.
#[repr(C)]
#[derive(Clone, Copy)]
pub struct Interval {
    pub low: f64,
    pub high: f64,
}

// The least and the greatest thickness behind each surface, the last too; entries past the surfaces are not looked at.
#[repr(C)]
#[derive(Clone, Copy)]
pub struct ThicknessLimits {
    pub thicknesses: [Interval; 16],
}

// The least and the greatest track, and for each surface those of the height at it and of the slope behind it; zero past the surfaces.
#[repr(C)]
#[derive(Clone, Copy)]
pub struct TraceLimits {
    pub track: Interval,
    pub heights: [Interval; 16],
    pub slopes: [Interval; 16],
}

// A paraxial ray within limits as it arrives at a surface: its height there, its slope and the index in front.
#[derive(Clone, Copy)]
pub struct ArrivingLimits {
    pub y: Interval,
    pub u: Interval,
    pub n: f64,
}

// The ray as it arrives at the next surface, and whether every interval of the refraction, and of the transfer, has finite ends. No Option: the last
// surface has the slope, and asks nothing of the transfer behind it.
#[derive(Clone, Copy)]
pub struct PassedLimits {
    pub ray: ArrivingLimits,
    pub refracted: bool,
    pub transferred: bool,
}
