// The program: reads heard words from standard input, and prints the weight and nodes of their lightest line, or a refusal.
#![tactic(auto)]

use line_format::input::read_text;
use records::numbered::Printed;
use std::io;
use stock_reader::read_line;

fn main(rt: HostRuntime) -> io::Result<()> {
    let text = read_text(rt.stdin())?;
    println!(rt; "{}", Printed(read_line(&text)))
}
