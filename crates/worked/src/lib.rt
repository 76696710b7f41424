// A table of values worked by hand, proved of the library's definitions.

#![tactic(auto)]

ghost use Rattle.std.specs.Prelude.{◌≡◌};
ghost use Rattle.worked.specs.Table.{Worked};

// How many values the table has. Its contract is the table.
pub fn worked_values() -> u8
    ensures table { Worked }
    ensures lines { result ≡ 17 }
{
    17
}
