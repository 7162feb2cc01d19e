//! The components of a protected object.

ghost use Rattle.std.specs.Prelude.{◌≡◌, ◌<◌, IsTrue, SomeIff};
ghost use Rattle.std.specs.FinMap.{get, insert, empty, len};
ghost use Rattle.rp_body.specs.Store.{limits_of, is_within, int_value, bool_value, with_int, with_bool};
ghost use Rattle.rp_body.specs.Ranges.{IsNumbered};

use std::marker::Model;

/// How many components an object has of each kind.
#[derive(Clone, Copy)]
pub struct Limits {
    /// The number of whole-number components.
    pub ints: u8,
    /// The number of Boolean components.
    pub bools: u8,
}

/// A whole-number component: its range, both ends counted, and its value.
#[derive(Clone, Copy)]
pub struct Ranged {
    /// The least value.
    pub low: i64,
    /// The greatest value.
    pub high: i64,
    /// The value now.
    pub value: i64,
}

impl Ranged {
    /// The component with this value, if it lies in the range.
    fn with_value(self, value: i128) -> Option<Ranged>
        ensures { SomeIff result (IsTrue (is_within self.low self.high value))
            (record self { value = value }) }
    {
        if value < i128::from(self.low) || i128::from(self.high) < value {
            None
        } else {
            Some(Ranged {
                value: value as i64,
                ..self
            })
        }
    }
}

/// The most whole numbers, and the most Booleans, that an object has.
pub const MOST_OF_A_KIND: usize = 8;

/// The components of an object: at most 8 whole numbers and at most 8 Booleans, in place. Those of
/// a kind are named by the numbers from 0 in the order in which they were added.
#[derive(Clone, Drop)]
pub struct Components {
    ints: [Ranged; MOST_OF_A_KIND],
    bools: [bool; MOST_OF_A_KIND],
    int_count: u8,
    bool_count: u8,
}

impl Model for Components {
    ghost use Rattle.std.specs.Prelude.{◌≡◌, ◌≤◌, length, take};
    ghost use Rattle.rp_body.specs.Store.{Store, store_code, by_place};

    ghost Value = { Store };

    ghost coded = { store_code };

    ghost view = { λ c. record {
      ints = by_place (take c.int_count c.ints);
      bools = by_place (take c.bool_count c.bools);
    } };

    ghost invariant = { λ c. (c.int_count ≤ 8) × (c.bool_count ≤ 8)
        × (length c.ints ≡ 8) × (length c.bools ≡ 8) };
}

impl Components {
    /// No component yet.
    pub fn new() -> Self
        ensures ints { result.ints ≡ empty }
        ensures bools { result.bools ≡ empty }
    {
        let unused = Ranged {
            low: 0,
            high: 0,
            value: 0,
        };
        Components {
            ints: [unused; MOST_OF_A_KIND],
            bools: [false; MOST_OF_A_KIND],
            int_count: 0,
            bool_count: 0,
        }
    }

    /// Adds a whole number after the others, named by their number. Its value is not held against
    /// its range.
    pub fn add_int(&mut self, component: Ranged)
        requires room { len self.old.ints < 8 }
        ensures { self.new ≡ record self.old {
          ints = insert self.old.ints (len self.old.ints) component;
        } }
    {
        self.ints[usize::from(self.int_count)] = component;
        self.int_count += 1;
    }

    /// Adds a Boolean after the others, named by their number.
    pub fn add_bool(&mut self, value: bool)
        requires room { len self.old.bools < 8 }
        ensures { self.new ≡ record self.old {
          bools = insert self.old.bools (len self.old.bools) value;
        } }
    {
        self.bools[usize::from(self.bool_count)] = value;
        self.bool_count += 1;
    }

    /// How many there are of each kind, at most 8.
    pub fn limits(&self) -> Limits
        ensures counts { result ≡ limits_of self.now }
        ensures numbered { IsNumbered self.now }
    {
        Limits {
            ints: self.int_count,
            bools: self.bool_count,
        }
    }

    /// The whole number of this name, with its range, or `None` where there is none.
    pub fn int(&self, name: u8) -> Option<Ranged>
        ensures { result ≡ get self.now.ints name }
    {
        if name < self.int_count {
            Some(self.ints[usize::from(name)])
        } else {
            None
        }
    }

    /// The Boolean of this name, or `None` where there is none.
    pub fn bool(&self, name: u8) -> Option<bool>
        ensures { result ≡ get self.now.bools name }
    {
        if name < self.bool_count {
            Some(self.bools[usize::from(name)])
        } else {
            None
        }
    }

    /// The value of a whole number that is there.
    pub(crate) fn int_value(&self, name: u8) -> i64
        requires { name < len self.now.ints }
        ensures { result ≡ int_value self.now name }
    {
        self.ints[usize::from(name)].value
    }

    /// The value of a Boolean that is there.
    pub(crate) fn bool_value(&self, name: u8) -> bool
        requires { name < len self.now.bools }
        ensures { result ≡ bool_value self.now name }
    {
        self.bools[usize::from(name)]
    }

    /// Gives a whole number this value if it is in its range, and returns whether it is.
    pub(crate) fn set_int(&mut self, name: u8, value: i128) -> bool
        requires { name < len self.old.ints }
        ensures value { (self.new, result) ≡ with_int self.old name value }
        ensures counts { limits_of self.new ≡ limits_of self.old }
    {
        let place = usize::from(name);
        match self.ints[place].with_value(value) {
            Some(component) => {
                self.ints[place] = component;
                true
            }
            None => false,
        }
    }

    /// Gives a Boolean this value.
    pub(crate) fn set_bool(&mut self, name: u8, value: bool)
        requires { name < len self.old.bools }
        ensures value { self.new ≡ with_bool self.old name value }
        ensures counts { limits_of self.new ≡ limits_of self.old }
    {
        self.bools[usize::from(name)] = value;
    }
}
