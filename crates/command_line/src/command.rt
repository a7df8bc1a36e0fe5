//! The definition of the command line for the parser `clap`, and the parse of words by it.

ghost use Rattle.std.specs.Prelude.{◌≡◌, [], codes, false, IfOk};
ghost use Rattle.clap.specs.Walk.{texts};
ghost use Rattle.clap.specs.Words.{app_of, rule_of, shape_of};
ghost use Rattle.command_line.specs.Program.{AreFormats, AreOfCerts, AreOfFiles, IsLocal, ParsesAs, allow_rule, assess_shape, assessing_shape, background_rule, bounding_shape, certificate_rule, check_shape, complete_rule, file_shape, files_rule, format_rule, givens_rule, history_rule, opening_shape, pair_shape, program_app, prove_shape, proving_shape, puzzles_shape, searching_shape, top_shape, word_rule, work_shape};

use clap::{Arg, ArgAction, ArgMatches, Command, Error, value_parser};
use program_options::VERSION;
use std::alloc::{AllocError, Global};

// The formats that the file of a session or of a puzzle can have: a P3 text or a .non text.
static FORMATS: [&str; 2] = ["ppm", "non"];

// The formats that a certificate can be made in: nonolemma 1 or nonolemma 2.
static FORMS: [&str; 2] = ["1", "2"];

// Parses the words after the program's own name. Those that begin with `check` need no other command.
pub(crate) fn parsed<'a>(
    alloc: Global,
    words: &'a [&str],
) -> Result<Result<ArgMatches<'a>, Error>, AllocError>
    ensures { IfOk result (λ r. (formats : _)
        × (AreFormats formats × ParsesAs (program_app formats) (texts words.entry.now) r)) }
{
    if let ["check", ..] = *words {
        let command = named(alloc)?.subcommand(check_command(alloc, "check", CHECK)?)?;
        return Ok(command.try_get_matches_from(words));
    }
    Ok(command(alloc)?.try_get_matches_from(words))
}

// The whole definition. Each part is built in its own function, since proofs about the parser's values are long.
fn command<'a>(alloc: Global) -> Result<Command<'a>, AllocError>
    ensures { IfOk result (λ c. (formats : _)
        × (AreFormats formats × (app_of c ≡ program_app formats))) }
{
    let top = named(alloc)?;
    let work = work_command(alloc)?;
    let check = check_command(alloc, "check", CHECK)?;
    let prove = prove_command(alloc)?;
    let assess = assess_command(alloc)?;
    let command = top.subcommand(work)?;
    let command = command.subcommand(check)?;
    let command = command.subcommand(prove)?;
    command.subcommand(assess)
}

// What help says of the program.
const ABOUT: &str =
    "Design multicolour nonograms with one solution. Without a command, print the clues of a picture.";

fn named<'a>(alloc: Global) -> Result<Command<'a>, AllocError>
    ensures app { IfOk result (λ c. app_of c ≡ record { top = top_shape; subs = [] }) }
    ensures local { IfOk result IsLocal }
{
    let command = Command::new(alloc, "nonobench")
        .about(ABOUT)
        .version(VERSION)
        .bin_name("nonobench")?
        .no_binary_name(true)
        .subcommand_required(true);
    Ok(command)
}

fn work_command<'a>(alloc: Global) -> Result<Command<'a>, AllocError>
    ensures shape { IfOk result (λ c. (formats : _)
        × (AreOfFiles formats × (shape_of c ≡ work_shape formats))) }
    ensures local { IfOk result IsLocal }
{
    opening(alloc)?.arg(background(alloc))?.arg(history(alloc))
}

// The command `work` with the session's file and its format.
fn opening<'a>(alloc: Global) -> Result<Command<'a>, AllocError>
    ensures shape { IfOk result (λ c. (formats : _)
        × (AreOfFiles formats × (shape_of c ≡ opening_shape formats))) }
    ensures local { IfOk result IsLocal }
{
    file_command(alloc)?.arg(format(alloc))
}

// The command `work` with the session's file.
fn file_command<'a>(alloc: Global) -> Result<Command<'a>, AllocError>
    ensures shape { IfOk result (λ c. shape_of c ≡ file_shape) }
    ensures local { IfOk result IsLocal }
{
    Command::new(alloc, "work")
        .about("Open a picture or a puzzle, and answer commands from standard input, one per line")
        .after_help("Example: echo verdict | nonobench work heart.ppm")
        .arg(word(
            alloc,
            "file",
            "FILE",
            "The picture, in plain PPM (P3), or the puzzle, as a .non file",
        ))
}

// What help says of the command `check`.
const CHECK: &str = "Check a certificate that no other picture has the same clues";

// What help says of the file of givens: of a check, of a certificate that is made, and of an assessment.
const CHECK_GIVENS: &str =
    "File of the published givens, a line 'given R C' for each; CERT may name no others";

const PROVE_GIVENS: &str =
    "File of the published givens, a line 'given R C' for each; the certificate names exactly these";

const ASSESS_GIVENS: &str =
    "File of the published givens, a line 'given R C' for each; only with one FILE";

// The command that checks a certificate, under a name.
fn check_command<'a>(
    alloc: Global,
    name: &'a str,
    about: &'a str,
) -> Result<Command<'a>, AllocError>
    ensures shape { IfOk result (λ c. shape_of c ≡ check_shape name.entry.now) }
    ensures local { IfOk result IsLocal }
{
    pair_command(alloc, name, about)?
        .arg(givens(alloc, CHECK_GIVENS))?
        .arg(background(alloc))
}

// That command with the picture's file and the certificate's.
fn pair_command<'a>(alloc: Global, name: &'a str, about: &'a str) -> Result<Command<'a>, AllocError>
    ensures shape { IfOk result (λ c. shape_of c ≡ pair_shape name.entry.now) }
    ensures local { IfOk result IsLocal }
{
    Command::new(alloc, name)
        .about(about)
        .after_help("Example: nonobench check heart.ppm heart.ppm.cert")
        .arg(word(alloc, "file", "FILE", "The picture, in plain PPM (P3)"))?
        .arg(word(alloc, "cert", "CERT", "Its certificate"))
}

// The command `prove`, which makes a certificate.
fn prove_command<'a>(alloc: Global) -> Result<Command<'a>, AllocError>
    ensures shape { IfOk result (λ c. (forms : _)
        × (AreOfCerts forms × (shape_of c ≡ prove_shape forms))) }
    ensures local { IfOk result IsLocal }
{
    searching(alloc)?.arg(form(alloc))
}

// The command `prove` without the certificate's format.
fn searching<'a>(alloc: Global) -> Result<Command<'a>, AllocError>
    ensures shape { IfOk result (λ c. shape_of c ≡ searching_shape) }
    ensures local { IfOk result IsLocal }
{
    proving(alloc)?
        .arg(givens(alloc, PROVE_GIVENS))?
        .arg(complete(alloc))
}

// The command `prove` with the picture's file and its background.
fn proving<'a>(alloc: Global) -> Result<Command<'a>, AllocError>
    ensures shape { IfOk result (λ c. shape_of c ≡ proving_shape) }
    ensures local { IfOk result IsLocal }
{
    Command::new(alloc, "prove")
        .about("Print a certificate that no other picture has the same clues")
        .after_help("Example: nonobench prove heart.ppm > heart.ppm.cert")
        .arg(word(alloc, "file", "FILE", "The picture, in plain PPM (P3)"))?
        .arg(background(alloc))
}

// The command `assess`, which says whether puzzles are fit to be published.
fn assess_command<'a>(alloc: Global) -> Result<Command<'a>, AllocError>
    ensures shape { IfOk result (λ c. (formats : _)
        × (AreOfFiles formats × (shape_of c ≡ assess_shape formats))) }
    ensures local { IfOk result IsLocal }
{
    bounding(alloc)?
        .arg(givens(alloc, ASSESS_GIVENS))?
        .arg(certificate(alloc))
}

// The command `assess` with the puzzles' files, their format, the background and the allowance.
fn bounding<'a>(alloc: Global) -> Result<Command<'a>, AllocError>
    ensures shape { IfOk result (λ c. (formats : _)
        × (AreOfFiles formats × (shape_of c ≡ bounding_shape formats))) }
    ensures local { IfOk result IsLocal }
{
    assessing(alloc)?.arg(background(alloc))?.arg(allow(alloc))
}

// The command `assess` with the puzzles' files and their format.
fn assessing<'a>(alloc: Global) -> Result<Command<'a>, AllocError>
    ensures shape { IfOk result (λ c. (formats : _)
        × (AreOfFiles formats × (shape_of c ≡ assessing_shape formats))) }
    ensures local { IfOk result IsLocal }
{
    puzzles_command(alloc)?.arg(format(alloc))
}

// The command `assess` with the puzzles' files.
fn puzzles_command<'a>(alloc: Global) -> Result<Command<'a>, AllocError>
    ensures shape { IfOk result (λ c. shape_of c ≡ puzzles_shape) }
    ensures local { IfOk result IsLocal }
{
    Command::new(alloc, "assess")
        .about("Say whether puzzles are fit to be published, and how hard they are")
        .after_help("Example: nonobench assess heart.ppm")
        .arg(files(alloc))
}

// One file or more.
fn files<'a>(alloc: Global) -> Arg<'a>
    ensures rule { rule_of result ≡ files_rule }
    ensures local { result.global ≡ false }
{
    Arg::new(alloc, "files")
        .value_name("FILE")
        .required(true)
        .num_args(1..)
        .help("The puzzles, in plain PPM (P3) or as .non files with a goal")
}

// A required argument without a flag, with what help shows for its value and its meaning.
fn word<'a>(alloc: Global, name: &'a str, value: &'a str, help: &'a str) -> Arg<'a>
    ensures rule { rule_of result ≡ word_rule name.entry.now }
    ensures local { result.global ≡ false }
{
    Arg::new(alloc, name)
        .value_name(value)
        .required(true)
        .help(help)
}

fn format<'a>(alloc: Global) -> Arg<'a>
    ensures rule { (formats : _)
        × (AreOfFiles formats × (rule_of result ≡ format_rule (codes "ppm") formats)) }
    ensures local { result.global ≡ false }
{
    Arg::new(alloc, "format")
        .long("format")
        .value_name("FORMAT")
        .value_parser(FORMATS.as_slice())
        .default_value("ppm")
        .help("The format of FILE")
}

fn form<'a>(alloc: Global) -> Arg<'a>
    ensures rule { (forms : _)
        × (AreOfCerts forms × (rule_of result ≡ format_rule (codes "2") forms)) }
    ensures local { result.global ≡ false }
{
    Arg::new(alloc, "format")
        .long("format")
        .value_name("FORMAT")
        .value_parser(FORMS.as_slice())
        .default_value("2")
        .help("The format of a certificate with lemmas: nonolemma 1 or nonolemma 2")
}

fn history<'a>(alloc: Global) -> Arg<'a>
    ensures rule { rule_of result ≡ history_rule }
    ensures local { result.global ≡ false }
{
    Arg::new(alloc, "history")
        .long("history")
        .value_name("N")
        .value_parser(value_parser!(u16).range(1..=1000))
        .default_value("100")
        .help("How many edits can be undone, from 1 to 1000")
}

fn allow<'a>(alloc: Global) -> Arg<'a>
    ensures rule { rule_of result ≡ allow_rule }
    ensures local { result.global ≡ false }
{
    Arg::new(alloc, "allow").long("allow").value_name("N").help(
        "Limit on the guesses (splits) in each part: 0 to 99999, or off; 10000 by default",
    )
}

fn certificate<'a>(alloc: Global) -> Arg<'a>
    ensures rule { rule_of result ≡ certificate_rule }
    ensures local { result.global ≡ false }
{
    Arg::new(alloc, "certificate")
        .long("certificate")
        .value_name("CERT")
        .help("Certificate to check instead of searching; only with one FILE")
}

fn givens<'a>(alloc: Global, help: &'a str) -> Arg<'a>
    ensures rule { rule_of result ≡ givens_rule }
    ensures local { result.global ≡ false }
{
    Arg::new(alloc, "givens")
        .long("givens")
        .value_name("FILE")
        .help(help)
}

fn complete<'a>(alloc: Global) -> Arg<'a>
    ensures rule { rule_of result ≡ complete_rule }
    ensures local { result.global ≡ false }
{
    Arg::new(alloc, "complete")
        .long("complete")
        .action(ArgAction::SetTrue)
        .help("Search without limits, until the answer is known")
}

fn background<'a>(alloc: Global) -> Arg<'a>
    ensures rule { rule_of result ≡ background_rule }
    ensures local { result.global ≡ false }
{
    Arg::new(alloc, "background")
        .long("background")
        .value_name("R,G,B")
        .help("The background colour of a plain PPM picture; white by default")
}
