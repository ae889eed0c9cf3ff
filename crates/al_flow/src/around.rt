ghost use Rattle.std.specs.Prelude.{◌≡◌};
ghost use Rattle.al_flow.specs.Around as spec;
ghost use Rattle.al_flow.specs.Rules as rule;

/// What a break can leave.
#[derive(Clone, Copy)]
pub enum Enclosing {
    Loop,
    /// A switch or an alt.
    Choice,
}

/// How much of what is round a statement is round the par branch at hand too.
#[derive(Clone, Copy)]
pub struct Outside {
    /// Loops, switches and alts.
    pub left: usize,
    /// Loops.
    pub loops: usize,
}

fn is_loop(enclosing: Enclosing) -> bool
    ensures { result ≡ spec.is_loop enclosing }
{
    match enclosing {
        Enclosing::Loop => true,
        Enclosing::Choice => false,
    }
}

/// How many targets a continue has there.
pub(crate) fn loops_in(around: &[Enclosing]) -> usize
    ensures { result ≡ spec.loops_in around.now }
{
    around.iter().filter(|e| is_loop(**e)).count()
}

/// What is round a branch that begins inside these.
pub(crate) fn outside_of(around: &[Enclosing]) -> Outside
    ensures { result ≡ spec.outside_of around.now }
{
    Outside {
        left: around.len(),
        loops: loops_in(around),
    }
}

#[tactic(auto, unfolding(crate::specs::Rules::has_targets))]
pub(crate) fn has_targets(n: u64, count: usize) -> bool
    ensures { result ≡ rule.has_targets n count }
{
    1 <= n && n <= count as u64
}

#[tactic(auto, unfolding(crate::specs::Rules::stays_inside))]
pub(crate) fn stays_inside(n: u64, count: usize, outside: usize) -> bool
    ensures { result ≡ rule.stays_inside n count outside }
{
    n <= count.saturating_sub(outside) as u64 || !has_targets(n, count)
}

/// How many a break or continue counts, which is 1 where none is written.
pub(crate) fn count_of(count: Option<u64>) -> u64
    ensures { result ≡ spec.count_of count }
{
    count.unwrap_or(1)
}
