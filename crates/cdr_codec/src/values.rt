//! Values of parameters and results: read, written, and copied from one byte order to another.
ghost use Rattle.std.specs.Prelude.{◌≡◌, ◌+◌, ◌<◌, ◌^◌, List, [], ◌∷◌, length, map, IfOk, OnOk, OnErr};
ghost use Rattle.std.specs.List.{All};
ghost use Rattle.ft_base.specs.Canonical.{type_of, value_at, values_at, HasSpelling, AreOf, IsCanonical};
ghost use Rattle.cdr_codec.specs.Arguments.{param, params, written_value};
ghost use Rattle.cdr_codec.specs.Calls.{field_fault, Gives, appended, appended_each};
ghost use Rattle.cdr_codec.specs.Copies.{Copies};

use crate::faults::{CdrFault, FieldFault};
use crate::orders::Order;
use crate::readers::CdrReader;
use crate::writers::CdrWriter;
use ft_base::{Bytes, NoMemory, Par, Value, canonical_forms_are_of_values};
use std::alloc::Global;

/// Reads a value of this type.
pub fn read_value(alloc: Global, par: Par, reader: &mut CdrReader) -> Result<Value, FieldFault>
    ensures { Gives (λ value. value) field_fault result ((param par).read reader.old) reader.new }
{
    match par {
        // The most common type: its fault is taken apart, as in `CdrReader`.
        Par::I64 => match reader.read_i64() {
            Ok(number) => Ok(Value::I64(number)),
            Err(CdrFault { why, place }) => Err(FieldFault::Bad(CdrFault { why, place })),
        },
        Par::U32 => {
            let number = reader.read_u32()?;
            Ok(Value::U32(number))
        }
        Par::Bool => {
            let flag = reader.read_bool()?;
            Ok(Value::Bool(flag))
        }
        Par::Text => {
            let text = reader.read_string()?;
            let text = Bytes::of(alloc, text)?;
            Ok(Value::Text(text))
        }
        Par::Octets => {
            let octets = reader.read_octets()?;
            let octets = Bytes::of(alloc, octets)?;
            Ok(Value::Octets(octets))
        }
    }
}

/// Writes a value.
pub fn write_value(value: &Value, writer: &mut CdrWriter) -> Result<(), NoMemory>
    requires { HasSpelling value.now }
    ensures written { OnOk result (writer.new ≡ appended written_value value.now writer.old) }
    ensures left { OnErr result (writer.new ≡ writer.old) }
{
    match value {
        Value::I64(number) => writer.write_i64(*number),
        Value::U32(number) => writer.write_u32(*number),
        Value::Bool(flag) => writer.write_bool(*flag),
        Value::Text(text) => writer.write_string(text.bytes()),
        Value::Octets(octets) => writer.write_octets(octets.bytes()),
    }
}

/// Reads a value of this type and writes it, in the writer's own byte order.
pub(crate) fn copy_value(
    par: Par,
    reader: &mut CdrReader,
    writer: &mut CdrWriter,
) -> Result<(), FieldFault>
    ensures { Copies (param par) result reader.old reader.new writer.old writer.new }
{
    match par {
        // Its fault is taken apart, as in `read_value`.
        Par::I64 => match reader.read_i64() {
            Ok(number) => {
                writer.write_i64(number)?;
                Ok(())
            }
            Err(CdrFault { why, place }) => Err(FieldFault::Bad(CdrFault { why, place })),
        },
        Par::U32 => {
            let number = reader.read_u32()?;
            writer.write_u32(number)?;
            Ok(())
        }
        Par::Bool => {
            let flag = reader.read_bool()?;
            writer.write_bool(flag)?;
            Ok(())
        }
        Par::Text => {
            let text = reader.read_string()?;
            writer.write_string(text)?;
            Ok(())
        }
        Par::Octets => {
            let octets = reader.read_octets()?;
            writer.write_octets(octets)?;
            Ok(())
        }
    }
}

fn write_values(values: &[Value], writer: &mut CdrWriter) -> Result<(), NoMemory>
    requires { All HasSpelling values.now }
    ensures { OnOk result (writer.new ≡ appended_each written_value values.now writer.old) }
{
    for value in values {
        write_value(value, writer)?;
    }
    Ok(())
}

fn canonical_exactly(alloc: Global, values: &[Value]) -> Result<Bytes, NoMemory>
    requires { All HasSpelling values.now }
    ensures { IfOk result (λ bytes. bytes ≡ values_at 0 values.now) }
{
    let mut writer = CdrWriter::new(alloc, Order::Big, 0);
    write_values(values, &mut writer)?;
    Ok(writer.finish())
}

/// The canonical form of these values, in this order: an operation's arguments, or what it gives.
pub fn canonical(alloc: Global, values: &[Value]) -> Result<Bytes, NoMemory>
    requires { All HasSpelling values.now }
    ensures spelled { IfOk result (λ bytes. bytes ≡ values_at 0 values.now) }
    ensures canonical { IfOk result (λ bytes. IsCanonical (map type_of values.now) bytes) }
{
    canonical_forms_are_of_values();
    canonical_exactly(alloc, values)
}

fn one_at(alloc: Global, par: Par, reader: &mut CdrReader) -> Result<Value, FieldFault>
    ensures { Gives (λ value. value ∷ []) field_fault result ((params (par ∷ [])).read reader.old) reader.new }
{
    let value = read_value(alloc, par, reader)?;
    Ok(value)
}

fn two_at(
    alloc: Global,
    first: Par,
    second: Par,
    reader: &mut CdrReader,
) -> Result<(Value, Value), FieldFault>
    ensures { Gives (λ two. two.0 ∷ two.1 ∷ []) field_fault result ((params (first ∷ second ∷ [])).read reader.old) reader.new }
{
    let one = read_value(alloc, first, reader)?;
    let other = read_value(alloc, second, reader)?;
    Ok((one, other))
}

/// The value whose canonical form this is: an argument that is alone, or a result.
pub fn read_one(alloc: Global, par: Par, bytes: &[u8]) -> Result<Value, NoMemory>
    requires canonical { IsCanonical (par ∷ []) bytes.now }
    requires short { length bytes.now + 8 < 2 ^ 32 }
    ensures typed { IfOk result (λ value. AreOf (par ∷ []) (value ∷ [])) }
    ensures spelled { IfOk result (λ value. bytes.now ≡ values_at 0 (value ∷ [])) }
{
    canonical_forms_are_of_values();
    let mut reader = CdrReader::new(Order::Big, 0, bytes);
    match one_at(alloc, par, &mut reader) {
        Ok(value) => Ok(value),
        Err(FieldFault::NoMemory) => Err(NoMemory),
        Err(FieldFault::Bad(_)) => unreachable!(),
    }
}

/// The two values whose canonical form this is.
pub fn read_two(
    alloc: Global,
    first: Par,
    second: Par,
    bytes: &[u8],
) -> Result<(Value, Value), NoMemory>
    requires canonical { IsCanonical (first ∷ second ∷ []) bytes.now }
    requires short { length bytes.now + 8 < 2 ^ 32 }
    ensures typed { IfOk result (λ two. AreOf (first ∷ second ∷ []) (two.0 ∷ two.1 ∷ [])) }
    ensures spelled { IfOk result (λ two. bytes.now ≡ values_at 0 (two.0 ∷ two.1 ∷ [])) }
{
    canonical_forms_are_of_values();
    let mut reader = CdrReader::new(Order::Big, 0, bytes);
    match two_at(alloc, first, second, &mut reader) {
        Ok(two) => Ok(two),
        Err(FieldFault::NoMemory) => Err(NoMemory),
        Err(FieldFault::Bad(_)) => unreachable!(),
    }
}
