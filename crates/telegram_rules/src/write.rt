// How a telegram is to be written.
use trailer_rules::Order;

#[derive(Clone, Copy, Debug, PartialEq, Eq)]
pub struct Setting {
    pub control: bool,
    pub advance: bool,
}

// What a caller asks for: a setting by name, with the order of the trailer or, as printed, without; or none, which is a 6021 between
// STX and ETX as printed, without second advance.
#[derive(Clone, Copy, Debug, PartialEq, Eq)]
pub enum Choice {
    Named(Setting),
    NamedIn(Setting, Order),
    Unnamed,
}
