//! The rows of values, exceptions, contexts and references on a wire: verbs and words come in, one row a line, and each
//! is repeated with its answer below it. A line that is empty or begins with `#` is repeated alone.
#![tactic(auto)]

mod arguments;
mod contexts;
mod exceptions;
mod references;
mod values;

use row_words::RowFault;
use std::alloc::Global;

// Answers a row of values, of parameters and of system exceptions.
fn answer_value(
    alloc: Global,
    verb: &str,
    words: &[&str],
    out: &mut String,
) -> Result<(), RowFault> {
    match verb {
        "read" => values::read(alloc, words, out),
        "write" => values::write(alloc, words, out),
        "both" => values::both(alloc, words, out),
        "orders" => values::orders(words, out),
        "encapsulation" => values::encapsulation(alloc, words, out),
        "begin" => values::begin(alloc, words, out),
        "encapsulate" => values::encapsulate(alloc, words, out),
        "components" => values::components(alloc, words, out),
        "args" => arguments::args(alloc, words, out),
        "form" => arguments::form(alloc, words, out),
        "forms" => arguments::forms(alloc, words, out),
        "exception" => exceptions::exception(alloc, words, out),
        _ => answer_reference(alloc, verb, words, out),
    }
}

// Answers a row of contexts and of references.
fn answer_reference(
    alloc: Global,
    verb: &str,
    words: &[&str],
    out: &mut String,
) -> Result<(), RowFault> {
    match verb {
        "contexts" => contexts::contexts(alloc, words, out),
        "write-contexts" => contexts::write(alloc, words, out),
        "reference" => references::reference(alloc, words, out),
        "reference-in" => references::reference_in(alloc, words, out),
        "ior" => references::ior(alloc, words, out),
        "group" => references::group(alloc, words, out),
        "group-in" => references::group_in(alloc, words, out),
        "profiles" => references::profiles(alloc, words, out),
        "key" => references::key(alloc, words, out),
        "object-key" => references::key_of_group(alloc, words, out),
        "group-of" => references::group_of(alloc, words, out),
        "port" => references::port(words, out),
        "id" => references::id(alloc, words, out),
        "name-of" => references::name_in(alloc, words, out),
        _ => Err(RowFault::NoRow),
    }
}

// The answer to a row.
fn answer(alloc: Global, row: &str) -> Result<String, RowFault> {
    let words: Vec<&str> = row.split_whitespace().collect(alloc)?;
    let [verb, words @ ..] = words.as_slice() else {
        return Err(RowFault::NoRow);
    };
    let mut out = String::new(alloc);
    answer_value(alloc, *verb, words, &mut out)?;
    Ok(out)
}

fn main(rt: HostRuntime) -> anyhow::Result<()> {
    for line in rt.lines(rt.alloc()) {
        let line = line?;
        println!(rt; "{line}")?;
        if line.is_empty() || line.starts_with('#') {
            continue;
        }
        let answer = answer(rt.alloc(), line.as_str())?;
        println!(rt; "    {answer}")?;
    }
    Ok(())
}
