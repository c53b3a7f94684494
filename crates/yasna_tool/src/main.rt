//! `yasna_tool MODE KIND` reads one value from standard input and writes its DER encoding.
//!
//! All but the ends of the program itself is in the crate `yasna_tool_run`.
#![tactic(auto)]

use std::env;
use std::process::ExitCode;
use yasna_tool_run::ends::Counted;
use yasna_tool_run::tool;

fn main(rt: HostRuntime) -> ExitCode {
    let mut errors = rt.stderr();
    let Ok(all) = env::args(&rt) else {
        return ExitCode::from(tool::report_io_error(&mut errors));
    };
    let Ok(words) = all.skip(1).collect::<Vec<String>>(rt.alloc()) else {
        return ExitCode::from(tool::report_io_error(&mut errors));
    };
    let mut reader = Counted::new(rt.stdin());
    let mut writer = Counted::new(rt.stdout());
    let status = tool::tool(
        rt.alloc(),
        words.as_slice(),
        &mut reader,
        &mut writer,
        &mut errors,
    );
    ExitCode::from(status)
}
