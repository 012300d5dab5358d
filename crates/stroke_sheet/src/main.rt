// Reads a stroke sheet from standard input and prints the listing of its drawing, or the line that says why it is
// refused.
#![tactic(auto)]

use sheet_program::Report;

fn main(rt: HostRuntime) {
    sheet_program::run(
        rt.stdin(),
        rt.stdout(),
        rt.stderr(),
        b"stroke_sheet",
        Report::Listing,
    );
}
