ghost use Rattle.std.specs.Prelude.{◌≡◌, ◌+◌, ◌<◌, ℕ, None, IfSome, vec_len, vec_capacity};
ghost use Rattle.rd_doors.specs.Visits.{Holds, without};
ghost use Rattle.rd_doors.specs.Numbers.{IsFirst};

/// The place of the first that is this number.
fn place_of(numbers: &[u64], number: u64) -> Option<usize>
    ensures some { IfSome result (λ place. IsFirst number numbers.now place) }
    ensures none { result ≡ None → Holds number numbers.now → ⊥ }
{
    let mut place = 0;
    for one in numbers {
        if *one == number {
            return Some(place);
        }
        place += 1;
    }
    None
}

/// Takes the first that is this number out of those that are out.
pub fn take_out(numbers: &mut Vec<u64>, number: u64)
    requires { Holds number numbers.old.items }
    ensures rest { numbers.new.items ≡ without number numbers.old.items }
    ensures len { vec_len numbers.new + 1 ≡ vec_len numbers.old }
    ensures room { vec_capacity numbers.new ≡ vec_capacity numbers.old }
{
    if let Some(place) = place_of(numbers.as_slice(), number) {
        let _number = numbers.remove(place);
    }
}
