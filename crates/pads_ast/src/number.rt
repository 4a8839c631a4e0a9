ghost use Rattle.std.specs.Prelude.{◌≡◌, pos, ◌≤ℤ◌};

use std::marker::Model;

/// A number as a token has it, from 0 to 2^127 - 1. Contracts see it as that number.
#[derive(Debug, Drop)]
pub struct Number {
    value: i128,
}

impl Model for Number {
    ghost use Rattle.std.specs.Prelude.{◌≡◌, ℕ, pos};
    ghost use Rattle.std.specs.Coded.{coded_ℕ};
    ghost use Rattle.pads_ast.specs.Numbers.{natural};

    ghost Value = { ℕ };

    ghost coded = { coded_ℕ };

    ghost view = { λ number. natural number.value };

    ghost invariant = { λ number. number.value ≡ pos (natural number.value) };
}

impl Number {
    pub fn new(value: i128) -> Number
        requires { pos 0 ≤ℤ value }
        ensures value { pos result ≡ value }
    {
        Number { value }
    }

    pub fn get(&self) -> i128
        ensures value { result ≡ pos self.now }
    {
        self.value
    }
}
