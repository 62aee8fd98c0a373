mod calls;
mod plans;
mod programs;

use calls::Stateless;
use std::io;
use tests_lines::answer_lines;

fn main(rt: HostRuntime) -> io::Result<()> {
    answer_lines(&rt, &mut Stateless)
}
