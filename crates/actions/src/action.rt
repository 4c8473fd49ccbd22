ghost use Rattle.std.specs.Prelude.{◌≡◌, true, if◌then◌else◌, Some, None};
ghost use Rattle.std.specs.Option.{option_map};
ghost use Rattle.theory.specs.Codes.{lawful_code};

// An action of a design, by its code: 0 inner, 1 prioritised inner, else 4 * channel + 2 * co-name + prioritised.
#[derive(Clone, Copy, PartialEq, Eq, Debug)]
pub struct Action {
    code: u8,
    ghost lawful: { lawful_code code ≡ true },
}

impl Action {
    // The codes 2, 3 and those above 243 name no action. `Option` as `char::from_u32` has: nothing is to be said of a code that is none.
    pub fn from_code(code: u16) -> Option<Action>
        ensures { option_map (λ a. a.code) result ≡ (if lawful_code code then Some code else None) }
    {
        match code {
            0 | 1 | 4..=243 => Some(Action { code: code as u8 }),
            gap if gap < 4 => None,
            _ => None,
        }
    }

    pub fn inner(prioritised: bool) -> Action
        ensures { result.code ≡ (if prioritised then 1 else 0) }
    {
        Action {
            code: u8::from(prioritised),
        }
    }

    pub fn code(self) -> u8
        ensures { result ≡ self.code }
    {
        self.code
    }
}

mod changes;
mod parts;
