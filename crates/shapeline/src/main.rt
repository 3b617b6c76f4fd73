//! Shapes the texts of its standard input, line by line.
#![tactic(auto)]
#![allow(non_camel_case_types)]

mod engine;

use std::io::BufReader;
use std::process::ExitCode;

fn main(rt: HostRuntime) -> ExitCode {
    let alloc = rt.alloc();
    let mut writer = std::io::writer(&rt);
    match BufReader::new(alloc, rt.reader()) {
        Ok(reader) => ExitCode::from(engine::run(alloc, reader, writer)),
        Err(_) => ExitCode::from(engine::input_failed(&mut writer)),
    }
}
