// Filling the working table: the laws by which a function over a lent slice of structs meets its contract. They hold for any struct,
// and are proofs alone; the function is here only because a crate needs one. No other crate rests on them. They stay, since README and
// docs/ name them, and they say more than `working_table::fill` does: of any core, any plain parameters and the table at any place.
#![tactic(auto)]

ghost use Rattle.std.specs.Prelude.{◌≡◌};

pub fn one() -> u32
    ensures { result ≡ 1 }
{
    1
}
