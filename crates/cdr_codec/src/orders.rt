ghost use Rattle.std.specs.Prelude.{◌≡◌};
ghost use Rattle.cdr_codec.specs.Orders.{order_of, order_sign};

/// The byte order of a message or of an encapsulation.
#[derive(Clone, Copy, Debug, PartialEq, Eq)]
pub enum Order {
    /// The highest byte of a number first.
    Big,
    /// The lowest byte of a number first.
    Little,
}

impl Order {
    /// The order that bit 0 of a message's flags names.
    pub fn of_flags(flags: u8) -> Order
        ensures { result ≡ order_of flags }
    {
        if flags % 2 == 1 {
            Order::Little
        } else {
            Order::Big
        }
    }

    /// The octet that names the order: at the front of an encapsulation, and as a message's flags.
    pub fn sign(self) -> u8
        ensures sign { result ≡ order_sign self }
        ensures names { order_of result ≡ self }
    {
        match self {
            Order::Big => 0,
            Order::Little => 1,
        }
    }
}
