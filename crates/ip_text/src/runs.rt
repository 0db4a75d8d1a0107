// The longest run of zero groups.
ghost use Rattle.std.specs.Prelude.{◌≡◌, ◌≤◌, ◌+◌, length};
ghost use Rattle.ip_text.specs.Runs.{IsRun, zeros_at};

fn zeros_from(groups: &[u16], start: usize) -> usize
    requires { start ≤ length groups.now }
    ensures value { result ≡ zeros_at groups.now start }
    ensures range { start + result ≤ length groups.now }
{
    let mut at = start;
    while at < groups.len() && groups[at] == 0 {
        at += 1;
    }
    at - start
}

/// Where the run begins, and how long it is: 0 and 0 where no group is zero.
pub(crate) fn longest_run(groups: &[u16]) -> (usize, usize)
    ensures run { IsRun groups.now result.0 result.1 }
    ensures range { result.0 + result.1 ≤ length groups.now }
{
    let mut best = 0usize;
    let mut most = zeros_from(groups, 0);
    for start in 0..groups.len() {
        let count = zeros_from(groups, start);
        if most < count {
            best = start;
            most = count;
        }
    }
    (best, most)
}
