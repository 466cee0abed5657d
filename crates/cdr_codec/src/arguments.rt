//! Bodies and results, which hold values in any byte order, and their canonical form.
ghost use Rattle.std.specs.Prelude.{◌≤◌, ◌≡◌, ◌+◌, ◌<◌, ◌^◌, [], ◌∷◌, length, IfOk, IsOk};
ghost use Rattle.ft_base.specs.Canonical.{IsCanonical, AreSpelledAs, one_of};
ghost use Rattle.cdr_codec.specs.Reading.{reader_at};
ghost use Rattle.cdr_codec.specs.Arguments.{body_reader, params, pars_of, IsFormOf, StopsAt, IsNoBody, reordered, IsReordered};
ghost use Rattle.cdr_codec.specs.Copies.{Copies, FormsOf, IsArgs, OnBad};

use crate::bodies::{ArgsFault, Raw};
use crate::digits::digits_of_u64;
use crate::faults::{CdrFault, FieldFault};
use crate::orders::Order;
use crate::readers::CdrReader;
use crate::values::copy_value;
use crate::writers::CdrWriter;
use ft_base::{Bytes, NoMemory, Par, Signature, canonical_forms_are_of_values};
use std::alloc::Global;

fn copy_one(
    par: Option<Par>,
    reader: &mut CdrReader,
    writer: &mut CdrWriter,
) -> Result<(), FieldFault>
    ensures { Copies (params (one_of par)) result reader.old reader.new writer.old writer.new }
{
    match par {
        None => Ok(()),
        Some(par) => copy_value(par, reader, writer),
    }
}

fn copy_both(
    signature: &Signature,
    reader: &mut CdrReader,
    writer: &mut CdrWriter,
) -> Result<(), FieldFault>
    ensures { Copies (params (pars_of signature.now)) result reader.old reader.new writer.old writer.new }
{
    copy_one(signature.first, reader, writer)?;
    copy_one(signature.second, reader, writer)
}

/// The form of one number of 64 bits, by far the most common. So few bytes need no memory, where a
/// writer's text does. A fault is taken apart, as in `CdrReader`.
fn number_form(alloc: Global, order: Order, reader: &mut CdrReader) -> Result<Bytes, FieldFault>
    ensures { FormsOf order (params (Par.I64 ∷ [])) result reader.old reader.new }
{
    match reader.read_i64() {
        Ok(number) => {
            let form = Bytes::of(alloc, &digits_of_u64(order, number.cast_unsigned()))?;
            Ok(form)
        }
        Err(CdrFault { why, place }) => Err(FieldFault::Bad(CdrFault { why, place })),
    }
}

fn one_form(
    alloc: Global,
    order: Order,
    par: Option<Par>,
    reader: &mut CdrReader,
) -> Result<Bytes, FieldFault>
    ensures { FormsOf order (params (one_of par)) result reader.old reader.new }
{
    if let Some(Par::I64) = par {
        return number_form(alloc, order, reader);
    }
    let mut writer = CdrWriter::new(alloc, order, 0);
    copy_one(par, reader, &mut writer)?;
    Ok(writer.finish())
}

fn form_of(
    alloc: Global,
    signature: &Signature,
    reader: &mut CdrReader,
) -> Result<Bytes, FieldFault>
    ensures { FormsOf Order.Big (params (pars_of signature.now)) result reader.old reader.new }
{
    if signature.second.is_none() {
        return one_form(alloc, Order::Big, signature.first, reader);
    }
    let mut writer = CdrWriter::new(alloc, Order::Big, 0);
    copy_both(signature, reader, &mut writer)?;
    Ok(writer.finish())
}

fn args_in(
    alloc: Global,
    order: Order,
    align: u8,
    input: &[u8],
    signature: &Signature,
) -> Result<Bytes, ArgsFault>
    requires { align + length input.now + 8 < 2 ^ 32 }
    ensures exact { IsArgs (reader_at order align input.now) (pars_of signature.now) result }
    ensures values { IfOk result (AreSpelledAs (pars_of signature.now) 0) }
{
    // Reading never goes back, so no place is below this one.
    let start = align as u32;
    let mut reader = CdrReader::new(order, start, input);
    match form_of(alloc, signature, &mut reader) {
        Ok(args) => {
            if reader.rest().is_empty() {
                Ok(args)
            } else {
                Err(ArgsFault::Bad(reader.place().saturating_sub(start)))
            }
        }
        Err(FieldFault::Bad(fault)) => Err(ArgsFault::Bad(fault.place.saturating_sub(start))),
        Err(FieldFault::NoMemory) => Err(ArgsFault::NoMemory),
    }
}

/// The canonical form of an operation's parameters, which are the whole of a body. Padding before
/// the first parameter, where the body's place calls for it, is a part of the body.
pub fn args_of(alloc: Global, body: &Raw, signature: &Signature) -> Result<Bytes, ArgsFault>
    requires { body.now.align + length body.now.bytes + 8 < 2 ^ 32 }
    ensures found { IfOk result (λ args. IsFormOf args body.now (pars_of signature.now)) }
    ensures sized { IfOk result (λ args. length args ≤ length body.now.bytes + 7) }
    ensures canonical { IfOk result (λ args. IsCanonical (pars_of signature.now) args) }
    ensures refused { OnBad result (λ place. IsNoBody body.now (pars_of signature.now)) }
    ensures place { OnBad result (StopsAt body.now (pars_of signature.now)) }
    ensures exact { IsArgs (body_reader body.now) (pars_of signature.now) result }
{
    canonical_forms_are_of_values();
    args_in(alloc, body.order, body.align, body.bytes.bytes(), signature)
}

fn result_exactly(
    alloc: Global,
    order: Order,
    gives: Option<Par>,
    value: &[u8],
) -> Result<Bytes, NoMemory>
    requires known { IsOk ((params (one_of gives)).read (reader_at Order.Big 0 value.now)) }
    requires short { length value.now + 8 < 2 ^ 32 }
    ensures { IfOk result (λ bytes. bytes ≡ reordered order (one_of gives) value.now) }
{
    let mut reader = CdrReader::new(Order::Big, 0, value);
    match one_form(alloc, order, gives, &mut reader) {
        Ok(form) => Ok(form),
        Err(FieldFault::NoMemory) => Err(NoMemory),
        Err(FieldFault::Bad(_)) => unreachable!(),
    }
}

/// What an operation gave, from its canonical form into this byte order.
pub fn result_in(
    alloc: Global,
    order: Order,
    gives: Option<Par>,
    value: &[u8],
) -> Result<Bytes, NoMemory>
    requires canonical { IsCanonical (one_of gives) value.now }
    requires short { length value.now + 8 < 2 ^ 32 }
    ensures value { IfOk result (λ bytes. bytes ≡ reordered order (one_of gives) value.now) }
    ensures spelled { IfOk result (IsReordered order (one_of gives) value.now) }
    ensures sized { IfOk result (λ bytes. length bytes ≡ length value.now) }
{
    canonical_forms_are_of_values();
    result_exactly(alloc, order, gives, value)
}
