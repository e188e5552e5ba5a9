//! The program `wideconv`, over any devices.

ghost use Rattle.std.specs.Prelude.{◌≡◌, ◌==◌, ◌≤◌, ◌⊎◌, [], Some, true, false};
ghost use Rattle.std.specs.Io.KnownBytes.{Appends};
ghost use Rattle.wideconv_command.specs.Inputs.{has_taken_end, source_of};
ghost use Rattle.wideconv_command.specs.Outputs.{sink_of};
ghost use Rattle.wideconv_command.specs.Requests.{IsOfStreams};
ghost use Rattle.wideconv_command.specs.declared.request.Asked.TheVariants.{List, Help, Version};
ghost use Rattle.wideconv_command.specs.declared.request.Request.{Request};
ghost use Rattle.wideconv_command.specs.Texts.{ConvertsBy, went_well};

use crate::examining::{Total, examine, put_line};
use crate::files::{begin, finish};
use crate::input::Input;
use crate::messages::{
    FAILED, FORMS_LIST, HELP, SUCCESS, USAGE, VERSION, WRONG_USAGE, report, report_system,
};
use crate::output::Output;
use crate::request::{Asked, Request, parse};
use crate::text::{Conversion, TextError, convert_text};
use std::fs;
use std::rt::Files;
use wide_bytes::{ByteSink, ByteSource, FromRead, FromWrite, put_all};
use wide_convert::ConvertError;

// What messages call standard input and standard output.
const INPUT_NAME: &str = "standard input";

const OUTPUT_NAME: &str = "standard output";

// Writes the lines on faults of one text, or what it has. Returns whether it has no fault that is reported.
fn examine_text<S: ByteSource, K: ByteSink>(
    source: &mut Input<S>,
    sink: &mut K,
    request: &Request<'_>,
    name: &str,
) -> Result<bool, TextError>
    requires source_unfailed { S.has_failed (source_of source.old) ≡ false }
    requires source_open { has_taken_end source.old ≡ false }
    requires sink_unfailed { K.has_failed sink.old ≡ false }
{
    let examined = examine(source, sink, request.from, name, request.check)?;
    if request.stats {
        put_line(sink, name, &examined)?;
    }
    if request.check && examined.faults > 0 {
        put_line(sink, name, &Total(examined.faults))?;
    }
    Ok(!request.check || examined.faults == 0)
}

// Converts one text or looks at it. Returns whether all went well.
fn run_text<S: ByteSource, K: ByteSink>(
    source: &mut Input<S>,
    sink: &mut K,
    request: &Request<'_>,
    name: &str,
) -> Result<bool, TextError>
    requires source_unfailed { S.has_failed (source_of source.old) ≡ false }
    requires source_open { has_taken_end source.old ≡ false }
    requires sink_unfailed { K.has_failed sink.old ≡ false }
    ensures converted { ConvertsBy S.has_ended S.left source.old source.new (K.held sink.old) (K.held sink.new) request.now (went_well result) }
{
    let Some(to) = request.to else {
        return examine_text(source, sink, request, name);
    };
    let conversion = Conversion {
        from: request.from,
        to,
        policy: request.policy,
        bom: request.bom,
    };
    match convert_text(source, sink, conversion) {
        Ok(_faults) => Ok(true),
        Err(error) => Err(error),
    }
}

// Converts one text or looks at it, and reports why it was not read or written to its end. Returns whether all went
// well.
fn run_one<S: ByteSource, K: ByteSink, F: ByteSink, P: ByteSink>(
    source: &mut Input<S>,
    sink: &mut Output<K, P>,
    faults: &mut F,
    request: &Request<'_>,
    name: &str,
) -> bool
    requires source_unfailed { S.has_failed (source_of source.old) ≡ false }
    requires source_open { has_taken_end source.old ≡ false }
    requires sink_unfailed { K.has_failed (sink_of sink.old) ≡ false }
    ensures converted { ConvertsBy S.has_ended S.left source.old source.new (K.held (sink_of sink.old)) (K.held (sink_of sink.new)) request.now result }
    ensures quiet { result ≡ true → faults.new ≡ faults.old }
{
    match run_text(source, sink, request, name) {
        Ok(is_well) => is_well,
        Err(error @ TextError::Stopped(ConvertError::Write)) => {
            let name = request.output.unwrap_or(OUTPUT_NAME);
            report_system(faults, name, &error, sink.code());
            false
        }
        Err(error) => {
            report_system(faults, name, &error, source.code());
            false
        }
    }
}

// Opens a file, and converts it or looks at it. Returns whether all went well.
fn run_file<R: Files, S: ByteSource, K: ByteSink, F: ByteSink, P: ByteSink>(
    rt: &R,
    file: &str,
    input: &mut Input<S>,
    sink: &mut Output<K, P>,
    faults: &mut F,
    request: &Request<'_>,
) -> bool
    requires input_unfailed { S.has_failed (source_of input.old) ≡ false }
    requires sink_unfailed { K.has_failed (sink_of sink.old) ≡ false }
{
    if file == "-" {
        return input.ended() || run_one(input, sink, faults, request, INPUT_NAME);
    }
    match fs::open(rt, file) {
        Ok(opened) => {
            let mut source = Input::new(FromRead::new(opened));
            run_one(&mut source, sink, faults, request, file)
        }
        Err(error) => {
            report(faults, file, &error);
            false
        }
    }
}

// Converts the files, up to the first that fails, or looks at each. Without a file it is standard input. Returns
// whether all went well.
fn run_files<R: Files, S: ByteSource, K: ByteSink, F: ByteSink, P: ByteSink>(
    rt: &R,
    files: &[String],
    input: &mut Input<S>,
    sink: &mut Output<K, P>,
    faults: &mut F,
    request: &Request<'_>,
) -> bool
    requires input_unfailed { S.has_failed (source_of input.old) ≡ false }
    requires input_open { has_taken_end input.old ≡ false }
    requires sink_unfailed { K.has_failed (sink_of sink.old) ≡ false }
    ensures converted { files.now ≡ [] → ConvertsBy S.has_ended S.left input.old input.new (K.held (sink_of sink.old)) (K.held (sink_of sink.new)) request.now result }
    ensures quiet { files.now ≡ [] → result ≡ true → faults.new ≡ faults.old }
{
    if files.is_empty() {
        return run_one(input, sink, faults, request, INPUT_NAME);
    }
    let mut is_well = true;
    let mut request = *request;
    for file in files {
        if sink.failed() || input.failed() || !is_well && request.to.is_some() {
            return false;
        }
        is_well &= run_file(rt, file.as_str(), input, sink, faults, &request);
        // The text of all files has one BOM.
        request.bom = false;
    }
    is_well
}

// Converts files into a file, which is replaced only if all went well. Returns whether it did.
fn run_into<R: Files + AllocGlobal, S: ByteSource, F: ByteSink, P: ByteSink + Drop>(
    rt: &R,
    files: &[String],
    input: &mut Input<S>,
    path: &str,
    faults: &mut F,
    request: &Request<'_>,
    progress: Option<P>,
) -> bool
    requires input_unfailed { S.has_failed (source_of input.old) ≡ false }
    requires input_open { has_taken_end input.old ≡ false }
{
    let (file, names) = match begin(rt, path) {
        Ok(written) => written,
        Err(error) => {
            report(faults, path, &error);
            return false;
        }
    };
    let mut sink = Output::new(FromWrite::new(file), progress);
    let is_well = run_files(rt, files, input, &mut sink, faults, request);
    sink.end_progress();
    let file = sink.into_inner().into_inner();
    match finish(rt, file, names, is_well) {
        Ok(()) => is_well,
        Err(error) => {
            report(faults, path, &error);
            false
        }
    }
}

// Writes a text. Returns whether it was written.
fn print<K: ByteSink, F: ByteSink, P: ByteSink>(
    sink: &mut Output<K, P>,
    faults: &mut F,
    text: &str,
) -> bool
    requires sink_unfailed { K.has_failed (sink_of sink.old) ≡ false }
    ensures printed { result ≡ true → Appends (K.held (sink_of sink.old)) (K.held (sink_of sink.new)) text.now }
    ensures quiet { result ≡ true → faults.new ≡ faults.old }
{
    match put_all(sink, text.as_bytes()) {
        Ok(()) => true,
        Err(error) => {
            report_system(faults, OUTPUT_NAME, &error, sink.code());
            false
        }
    }
}

/// Does what the arguments ask for, and returns the exit status: 0 after success, and 1 after an error, whose message is
/// a line on `faults`, or if faults of the texts were reported.
pub fn command<R: Files + AllocGlobal, S: ByteSource, K: ByteSink, F: ByteSink, P: ByteSink + Drop>(
    rt: &R,
    asked: &Asked<'_>,
    input: &mut Input<S>,
    sink: &mut Output<K, P>,
    faults: &mut F,
) -> u8
    requires input_unfailed { S.has_failed (source_of input.old) ≡ false }
    requires input_open { has_taken_end input.old ≡ false }
    requires sink_unfailed { K.has_failed (sink_of sink.old) ≡ false }

    // Standard input is converted to standard output from a form that is named: it is a run of `convert`.
    ensures converted { (request : Request) → IsOfStreams request asked.now → ConvertsBy S.has_ended S.left input.old input.new (K.held (sink_of sink.old)) (K.held (sink_of sink.new)) request (result == 0) }

    // A list, help or the version is printed, and nothing is read.
    ensures list { asked.now ≡ List → result ≡ 0 → Appends (K.held (sink_of sink.old)) (K.held (sink_of sink.new)) FORMS_LIST.now }
    ensures help { asked.now ≡ Help → result ≡ 0 → Appends (K.held (sink_of sink.old)) (K.held (sink_of sink.new)) HELP.now }
    ensures version { asked.now ≡ Version → result ≡ 0 → Appends (K.held (sink_of sink.old)) (K.held (sink_of sink.new)) VERSION.now }
    ensures reads { (asked.now ≡ List) ⊎ (asked.now ≡ Help) ⊎ (asked.now ≡ Version) → input.new ≡ input.old }

    // The status is 0 or 1.
    ensures statuses { result ≤ 1 }
{
    let is_well = match asked {
        Asked::Texts(request, files) => match request.output {
            Some(path) => {
                let progress = sink.take_progress();
                run_into(rt, files, input, path, faults, request, progress)
            }
            None => {
                let is_well = run_files(rt, files, input, sink, faults, request);
                sink.end_progress();
                is_well
            }
        },
        Asked::List => print(sink, faults, FORMS_LIST),
        Asked::Help => print(sink, faults, HELP),
        Asked::Version => print(sink, faults, VERSION),
    };
    if is_well { SUCCESS } else { FAILED }
}

/// Runs the program with the arguments after its name, and returns the exit status: that of [`command`], or 2 after a
/// usage error.
pub fn run<R: Files + AllocGlobal, S: ByteSource, K: ByteSink, F: ByteSink, P: ByteSink + Drop>(
    rt: &R,
    arguments: &[String],
    input: &mut Input<S>,
    sink: &mut Output<K, P>,
    faults: &mut F,
) -> u8
    requires input_unfailed { S.has_failed (source_of input.old) ≡ false }
    requires input_open { has_taken_end input.old ≡ false }
    requires sink_unfailed { K.has_failed (sink_of sink.old) ≡ false }
{
    match parse(arguments) {
        Ok(asked) => command(rt, &asked, input, sink, faults),
        Err(refusal) => {
            report(faults, "", &refusal);
            report(faults, "", &USAGE);
            WRONG_USAGE
        }
    }
}
