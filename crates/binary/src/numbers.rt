// Choices and products that leave their caller no branch and no overflow to prove.
ghost use Rattle.std.specs.Prelude.{◌≡◌, cond, ◌*◌, ◌≤◌};

// x where c holds, otherwise y.
pub fn choose<T: Copy>(c: bool, x: T, y: T) -> T
    ensures { result ≡ cond c x y }
{
    if c { x } else { y }
}

// Not u64's product, since its bound is a fact of each caller's proof.
pub fn product(x: u32, y: u32) -> u64
    ensures { (result ≡ x * y) × (result ≤ 18446744065119617025) }
{
    u64::from(x) * u64::from(y)
}
