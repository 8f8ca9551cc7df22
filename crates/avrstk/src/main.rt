//! Programs AVR parts through an STK500v2 programmer, as AVRDUDE does with `-c stk500v2`.
#![tactic(auto)]

use avr_tool::{
    CommandLine, FileSystem, Inlet, Network, Outlet, StreamLink, SystemDesk, run_command_line,
};
use std::alloc::Global;
use std::fs::File;
use std::io::Write;
use std::process::ExitCode;
use std::{fs, io};

fn main(rt: HostRuntime) -> ExitCode {
    let _taken = take_closed_streams(&rt);
    ExitCode::from(start(
        &rt,
        &rt,
        &rt,
        rt.stdin(),
        rt.stdout(),
        rt.stdout(),
        rt.stderr(),
    ))
}

/// Opens a folder in place of each closed standard stream, and keeps it open while the program runs. Otherwise a file
/// or a connection opened later would take that place, and output would go there. A folder can be neither read nor
/// written.
fn take_closed_streams(rt: &HostRuntime) -> [io::Result<File>; 3] {
    [fs::open(rt, "/"), fs::open(rt, "/"), fs::open(rt, "/")]
}

/// Runs what the command line asks for. The port `stdio:` is `input` and `replies`.
// Not part of `main`: the borrow checker refuses a desk over the runtime's own system, but accepts one over any system.
fn start<
    E: CommandLine + Alloc<A = Global>,
    N: Network,
    S: FileSystem + Drop,
    O: Outlet + Drop,
    M: Outlet + Drop,
    R: Inlet + Drop,
    W: Write + Drop,
>(rt: &E, network: N, system: S, input: R, replies: W, output: O, messages: M) -> u8 {
    let mut desk = SystemDesk::new(system, output, messages);
    let mut link = StreamLink::new(input, replies);
    run_command_line(rt, network, rt.alloc(), &mut desk, &mut link)
}
