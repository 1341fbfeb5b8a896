//! The program and its subcommands.

ghost use Rattle.std.specs.Prelude.{◌≡◌, IfOk};
ghost use Rattle.clap.specs.Words.{app_of};
ghost use Rattle.rr_command_line.specs.Building.{IsArg, IsCommand};
ghost use Rattle.rr_command_line.specs.Program.{sim_app, option_rule, check_lines_app, needed_rule, origin_rule, bare_serve_app, serve_app, data_rule, bare_node_app, node_app, journal_app, bare_app, script_command_app, stream_commands_app, serve_commands_app, node_commands_app, program_app};

use crate::version::VERSION;
use clap::{Arg, Command};
use std::alloc::{AllocError, Global};

/// `--NAME VALUE`.
fn option<'a>(alloc: Global, name: &'a str, value: &'a str, help: &'a str) -> Arg<'a>
    ensures { IsArg result (option_rule name.entry.now) }
{
    Arg::new(alloc, name)
        .long(name)
        .value_name(value)
        .help(help)
}

/// `sim [FILE]`.
fn sim<'a>(alloc: Global) -> Result<Command<'a>, AllocError>
    ensures { IfOk result (IsCommand sim_app) }
{
    let file = Arg::new(alloc, "FILE").help("The script, in place of standard input");
    Command::new(alloc, "sim")
        .about("Runs a script of several nodes (the default)")
        .arg(file)
}

/// `check-lines [--precision P] [--now T]`.
fn check_lines<'a>(alloc: Global) -> Result<Command<'a>, AllocError>
    ensures { IfOk result (IsCommand check_lines_app) }
{
    Command::new(alloc, "check-lines")
        .about("Checks lines on standard input and prints their samples")
        .arg(option(
            alloc,
            "precision",
            "P",
            "The unit of times: ns, us, ms or s [default: ns]",
        ))?
        .arg(option(
            alloc,
            "now",
            "T",
            "The time of lines without one, in nanoseconds; below zero as --now=T [default: 0]",
        ))
}

/// `NAME`, which is required.
fn needed<'a>(alloc: Global, name: &'a str, help: &'a str) -> Arg<'a>
    ensures { IsArg result (needed_rule name.entry.now) }
{
    Arg::new(alloc, name).required(true).help(help)
}

/// `--origin N`.
fn origin_arg<'a>(alloc: Global) -> Arg<'a>
    ensures { IsArg result origin_rule }
{
    option(
        alloc,
        "origin",
        "N",
        "The origin of this node's samples, 1 to 65535: another one at each start",
    )
    .required(true)
}

/// `serve CONFIG --origin N`.
fn bare_serve<'a>(alloc: Global) -> Result<Command<'a>, AllocError>
    ensures { IfOk result (IsCommand bare_serve_app) }
{
    Command::new(alloc, "serve")
        .about("Serves as a node: takes lines, answers fetches and pulls from peers")
        .arg(needed(alloc, "CONFIG", "The configuration of the node, in TOML"))?
        .arg(origin_arg(alloc))
}

/// `serve CONFIG --origin N [--load FILE] [--save FILE]`.
fn serve<'a>(alloc: Global) -> Result<Command<'a>, AllocError>
    ensures { IfOk result (IsCommand serve_app) }
{
    bare_serve(alloc)?
        .arg(option(alloc, "load", "FILE", "A snapshot to begin with"))?
        .arg(option(
            alloc,
            "save",
            "FILE",
            "The file that a snapshot is saved to after each line connection",
        ))
}

/// `--data DIR`.
fn data_arg<'a>(alloc: Global) -> Arg<'a>
    ensures { IsArg result data_rule }
{
    option(
        alloc,
        "data",
        "DIR",
        "The directory that the node keeps its journal in, made where there is none",
    )
    .required(true)
}

/// `node CONFIG --data DIR`.
fn bare_node<'a>(alloc: Global) -> Result<Command<'a>, AllocError>
    ensures { IfOk result (IsCommand bare_node_app) }
{
    Command::new(alloc, "node")
        .about("Serves as a node from a directory, and loses nothing that it acknowledged")
        .arg(needed(alloc, "CONFIG", "The configuration of the node, in TOML"))?
        .arg(data_arg(alloc))
}

/// `node CONFIG --data DIR [--load FILE]`.
fn node<'a>(alloc: Global) -> Result<Command<'a>, AllocError>
    ensures { IfOk result (IsCommand node_app) }
{
    bare_node(alloc)?.arg(option(
        alloc,
        "load",
        "FILE",
        "A snapshot to begin with, into a new directory",
    ))
}

/// `journal WHAT DIR`.
fn journal<'a>(alloc: Global) -> Result<Command<'a>, AllocError>
    ensures { IfOk result (IsCommand journal_app) }
{
    Command::new(alloc, "journal")
        .about("Reads the data directory of a node that isn't running")
        .arg(needed(
            alloc,
            "WHAT",
            "check, whether a node would start from it, or cells, to print what it would hold",
        ))?
        .arg(needed(alloc, "DIR", "The directory"))
}

/// The program without subcommands; its words are those after its name.
fn bare<'a>(alloc: Global) -> Result<Command<'a>, AllocError>
    ensures { IfOk result (λ c. app_of c ≡ bare_app) }
{
    let program = Command::new(alloc, "rr")
        .bin_name("rr")?
        .about("A replicated round-robin store for integer time series")
        .version(VERSION)
        .no_binary_name(true);
    Ok(program)
}

/// The program with the subcommand that runs scripts.
fn script_command<'a>(alloc: Global) -> Result<Command<'a>, AllocError>
    ensures { IfOk result (λ c. app_of c ≡ script_command_app) }
{
    bare(alloc)?.subcommand(sim(alloc)?)
}

/// The program with the subcommands that read one stream and write another.
fn stream_commands<'a>(alloc: Global) -> Result<Command<'a>, AllocError>
    ensures { IfOk result (λ c. app_of c ≡ stream_commands_app) }
{
    script_command(alloc)?.subcommand(check_lines(alloc)?)
}

/// The program with these and the subcommand that serves with snapshots.
fn serve_commands<'a>(alloc: Global) -> Result<Command<'a>, AllocError>
    ensures { IfOk result (λ c. app_of c ≡ serve_commands_app) }
{
    stream_commands(alloc)?.subcommand(serve(alloc)?)
}

/// The program with these and the subcommand that serves from a directory.
fn node_commands<'a>(alloc: Global) -> Result<Command<'a>, AllocError>
    ensures { IfOk result (λ c. app_of c ≡ node_commands_app) }
{
    serve_commands(alloc)?.subcommand(node(alloc)?)
}

/// The program and its subcommands. Refused if memory runs out.
pub fn program<'a>(alloc: Global) -> Result<Command<'a>, AllocError>
    ensures { IfOk result (λ c. app_of c ≡ program_app) }
{
    node_commands(alloc)?.subcommand(journal(alloc)?)
}
