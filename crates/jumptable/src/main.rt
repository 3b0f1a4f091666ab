// Prints the words of the tables that `jump` stores, from the step alone, as they stand in jump/src/table.rt: a line each.
// Stands on `jump` and `streams`; a program that only tests.
#![tactic(auto)]

use streams::console::Console;
use streams::output::Output;

// Adds a word, as a line of the source.
fn put_word(output: &mut Output, word: u64) {
    output.put(b"    0x");
    output.put_hex(word);
    output.put(b",\n");
}

fn main(rt: HostRuntime) {
    let console = Console {
        input: rt.stdin(),
        output: rt.stdout(),
        errors: rt.stderr(),
    };
    let mut out = io::large_buffer();
    let mut output = Output::new(console, &mut out);
    for word in &jump::drawn() {
        put_word(&mut output, *word);
    }
    output.flush();
}
