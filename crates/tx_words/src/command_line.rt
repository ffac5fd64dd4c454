// The command line as a command of `clap`: three subcommands, and no help and no version.
ghost use Rattle.std.specs.Prelude.{◌≡◌, IfOk, false};
ghost use Rattle.clap.specs.Words.{app_of, rule_of};
ghost use Rattle.clap.specs.declared.builder.command.Command.TheViews.{out-Command};
ghost use Rattle.tx_words.specs.CommandLine.{check_app, flag_rule, generate_app, number_rule, option_rule, run_app, sample_rule, top_app, tuplex_app, word_rule};

use clap::builder::ValueParser;
use clap::{Arg, ArgAction, Command};
use std::alloc::{AllocError, Global};

/// The most rows of a sample.
pub(crate) const MOST_SAMPLE: u32 = 10_000;

/// The most rows that are generated.
pub(crate) const MOST_ROWS: u32 = 1_000_000;

// A word that has to be there.
fn word_arg<'a>(alloc: Global, id: &'a str) -> Arg<'a>
    ensures rule { rule_of result ≡ word_rule id.entry.now }
    ensures local { result.global ≡ false }
{
    Arg::new(alloc, id).action(ArgAction::Set).required(true)
}

// A number that has to be there.
fn number_arg<'a>(alloc: Global, id: &'a str, most: u64) -> Arg<'a>
    ensures rule { rule_of result ≡ number_rule id.entry.now most }
    ensures local { result.global ≡ false }
{
    word_arg(alloc, id).value_parser(ValueParser::Unsigned(0, most))
}

// An option with a number, by its long name.
fn option_arg<'a>(alloc: Global, id: &'a str, most: u64) -> Arg<'a>
    ensures rule { rule_of result ≡ option_rule id.entry.now most }
    ensures local { result.global ≡ false }
{
    Arg::new(alloc, id)
        .long(id)
        .action(ArgAction::Set)
        .value_parser(ValueParser::Unsigned(0, most))
}

fn sample_arg<'a>(alloc: Global) -> Arg<'a>
    ensures rule { rule_of result ≡ sample_rule }
    ensures local { result.global ≡ false }
{
    option_arg(alloc, "sample", u64::from(MOST_SAMPLE)).default_value("100")
}

// A flag, by its long name.
fn flag_arg<'a>(alloc: Global, id: &'a str) -> Arg<'a>
    ensures rule { rule_of result ≡ flag_rule id.entry.now }
    ensures local { result.global ≡ false }
{
    Arg::new(alloc, id).long(id).action(ArgAction::SetTrue)
}

fn run_command<'a>(alloc: Global) -> Result<Command<'a>, AllocError>
    ensures app { IfOk result (λ c. app_of c ≡ run_app) }
    ensures local { IfOk result (λ c. (out-Command c).has_globals ≡ false) }
{
    let with_script = Command::new(alloc, "run").arg(word_arg(alloc, "script"))?;
    let with_sample = with_script.arg(sample_arg(alloc))?;
    let with_order = with_sample.arg(option_arg(alloc, "order", u64::MAX))?;
    with_order.arg(flag_arg(alloc, "stats"))
}

fn check_command<'a>(alloc: Global) -> Result<Command<'a>, AllocError>
    ensures app { IfOk result (λ c. app_of c ≡ check_app) }
    ensures local { IfOk result (λ c. (out-Command c).has_globals ≡ false) }
{
    Command::new(alloc, "check").arg(word_arg(alloc, "script"))
}

fn generate_command<'a>(alloc: Global) -> Result<Command<'a>, AllocError>
    ensures app { IfOk result (λ c. app_of c ≡ generate_app) }
    ensures local { IfOk result (λ c. (out-Command c).has_globals ≡ false) }
{
    let with_seed = Command::new(alloc, "generate").arg(number_arg(alloc, "seed", u64::MAX))?;
    let with_rows = with_seed.arg(number_arg(alloc, "rows", u64::from(MOST_ROWS)))?;
    with_rows.arg(word_arg(alloc, "file"))
}

fn top_command<'a>(alloc: Global) -> Command<'a>
    ensures { app_of result ≡ top_app }
{
    Command::new(alloc, "tuplex")
        .no_binary_name(true)
        .disable_help_flag(true)
        .disable_help_subcommand(true)
        .disable_version_flag(true)
        .subcommand_required(true)
}

/// The command line for `clap`, whose words are those after the program's own name.
pub(crate) fn tuplex_command<'a>(alloc: Global) -> Result<Command<'a>, AllocError>
    ensures { IfOk result (λ c. app_of c ≡ tuplex_app) }
{
    let run = run_command(alloc)?;
    let check = check_command(alloc)?;
    let generate = generate_command(alloc)?;
    let with_run = top_command(alloc).subcommand(run)?;
    let with_check = with_run.subcommand(check)?;
    with_check.subcommand(generate)
}
