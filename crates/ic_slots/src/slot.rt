ghost use Rattle.std.specs.Prelude.{◌≡◌, ◌<◌, Some, None};

use std::marker::Model;

/// A slot or none, in four bytes: the greatest number stands for none.
#[derive(Clone, Copy, Debug)]
pub struct OptionalSlot {
    number: u32,
}

impl Model for OptionalSlot {
    ghost use Rattle.std.specs.Prelude.{ℕ, Option};
    ghost use Rattle.ic_slots.specs.Kept.{slot_shown, number_of, number_kept};

    ghost Value = { Option ℕ };

    ghost view = { λ s. slot_shown s.number };

    ghost inverse = { λ s. record { number = number_of s } };

    ghost inverse_ok = { λ s h. number_kept s.number (λ n. record { number = n }) };
}

impl OptionalSlot {
    /// No slot.
    pub fn none() -> OptionalSlot
        ensures { result ≡ None }
    {
        OptionalSlot { number: u32::MAX }
    }

    /// This slot, which isn't the greatest number.
    pub fn some(slot: u32) -> OptionalSlot
        requires { slot < u32.MAX }
        ensures { result ≡ Some slot }
    {
        OptionalSlot { number: slot }
    }

    /// The slot, if there is one.
    pub fn get(self) -> Option<u32>
        ensures { result ≡ self }
    {
        if self.number == u32::MAX {
            return None;
        }
        Some(self.number)
    }
}
