//! The laws of reading and writing values. The functions do nothing: their contracts are facts.
ghost use Rattle.std.specs.Prelude.{◌≡◌, ◌<◌, ◌%◌, ℕ, List};
ghost use Rattle.std.specs.Int.{Width};
ghost use Rattle.ft_base.specs.declared.requests.Par.{Par};
ghost use Rattle.ft_base.specs.declared.values.Value.{Value};
ghost use Rattle.ft_base.specs.Canonical.{padding, value_at, values_at, AreOf, IsCanonical};
ghost use Rattle.cdr_codec.specs.declared.orders.Order.TheVariants as orders;
ghost use Rattle.cdr_codec.specs.Reading.{start};
ghost use Rattle.cdr_codec.specs.Arguments.{params, written_value, IsReadAs};
ghost use Rattle.cdr_codec.specs.declared.faults.CdrWhy.TheVariants as causes;
ghost use Rattle.cdr_codec.specs.Laws.{IsCodec, RefusesExactly, ReadsBack};
ghost use Rattle.cdr_codec.specs.Formats.{number, octets};
ghost use Rattle.cdr_codec.specs.Values.{boolean, text, signed};

use ft_base::canonical_forms_are_of_values;

/// What is read is spelled there, what is spelled is read, and `Short` comes before the other causes.
pub fn values_are_codecs()
    ensures numbers { (size : ℕ) → IsCodec causes.Short (number size) }
    ensures signed_numbers { (w : Width) → IsCodec causes.Short (signed w) }
    ensures booleans { IsCodec causes.Short boolean }
    ensures strings { IsCodec causes.Short text }
    ensures sequences_of_octets { IsCodec causes.Short octets }
{}

/// A read is refused exactly where nothing is spelled.
pub fn values_are_refused_exactly()
    ensures numbers { (size : ℕ) → RefusesExactly (number size) }
    ensures signed_numbers { (w : Width) → RefusesExactly (signed w) }
    ensures booleans { RefusesExactly boolean }
    ensures strings { RefusesExactly text }
    ensures sequences_of_octets { RefusesExactly octets }
{}

/// What is written is read again, whatever follows.
pub fn values_are_read_back()
    ensures numbers { (size : ℕ) → ReadsBack (number size) }
    ensures signed_numbers { (w : Width) → ReadsBack (signed w) }
    ensures booleans { ReadsBack boolean }
    ensures strings { ReadsBack text }
    ensures sequences_of_octets { ReadsBack octets }
{}

/// Padding leads to a multiple of the size, and is no longer than it must be.
pub fn padding_leads_to_multiples()
    ensures multiple { (place size : ℕ) → 0 < size → (start size place) % size ≡ 0 }
    ensures shorter { (place size : ℕ) → 0 < size → padding place size < size }
{}

/// What is written in big endian order from place 0 on is the canonical form.
pub fn canonical_forms_are_written()
    ensures one { (value : Value) (place : ℕ) → written_value orders.Big place value ≡ value_at place value }
    ensures all { (pars : List Par) (values : List Value) (place : ℕ) → AreOf pars values → (params pars).written orders.Big place values ≡ values_at place values }
{}

/// A canonical form is read, to its end, as the values that it is of.
pub fn canonical_forms_are_read()
    ensures { (pars : List Par) (bytes : List ℕ) → IsCanonical pars bytes → IsReadAs pars bytes }
{
    canonical_forms_are_of_values();
}
