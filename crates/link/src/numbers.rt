// The numbers (sequence numbers) of a link: from 1 to the last one, L.
ghost use Rattle.std.specs.Prelude.{◌≡◌, ◌^◌, ◌<◌, ◌≤◌};
ghost use Rattle.link.specs.Numbers.{last_of};

use mode::set::ParameterSet;

// The last number of a set: as many as fit its nonce, of which six bytes count at the most.
pub fn last_number(set: &ParameterSet) -> u64
    ensures is { result ≡ last_of «set».now }
    ensures small { (1 ≤ result) × (result < 2 ^ 48) }
{
    let bits = 8 * set.nonce().min(6);
    (1u64 << bits) - 1
}
