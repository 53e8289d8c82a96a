// "floor(permille × LMD / 1,000), and its signed distance from NAC".
ghost use Rattle.std.specs.Prelude.{◌≡◌, ◌≤◌};
ghost use Rattle.estimate.specs.Estimate as Spec;

// The counts of a permille of the learned capacity.
pub(crate) fn estimated(permille: u16, lmd: u16) -> u16
    requires { permille ≤ 1_000 }
    ensures { result ≡ Spec.estimated permille lmd }
{
    (permille as u32 * lmd as u32 / 1_000) as u16
}

// "estimate less NAC".
pub(crate) fn distance_from(counts: u16, estimate: u16) -> i32
    ensures { result ≡ Spec.distance_from counts estimate }
{
    estimate as i32 - counts as i32
}
