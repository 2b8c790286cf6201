ghost use Rattle.std.specs.Prelude.{◌≡◌, ◌==◌, ◌<◌, [], ◌∷◌, length, MatchOption, position};
ghost use Rattle.std.specs.Iterator.{YieldsFirstRef, item_count};
ghost use Rattle.lines.specs.Cuts.{lines};

// The first line of a trace, and what follows it; none where nothing is left.
pub fn cut(trace: &[u8]) -> Option<(&[u8], &[u8])>
    ensures { MatchOption result (trace.now ≡ []) (λ p. (lines trace.now ≡ p.0.now ∷ lines p.1.now) × (length p.1.now < length trace.now)) }
{
    if trace.is_empty() {
        return None;
    }
    match line_end(trace) {
        Some(end) => Some((&trace[..end], &trace[end + 1..])),
        None => Some((trace, &trace[trace.len()..])),
    }
}

// The place of the first end of a line.
fn line_end(trace: &[u8]) -> Option<usize>
    ensures { result ≡ position (λ c. c == 10) trace.now }
{
    trace.iter().position(|character| *character == b'\n')
}

// The lines of a trace, one after another.
#[derive(Drop)]
pub struct Lines<'a> {
    rest: &'a [u8],
}

impl<'a> Lines<'a> {
    pub fn of(trace: &'a [u8]) -> Lines<'a>
        ensures { result.rest.now ≡ trace.now }
    {
        Lines { rest: trace }
    }
}

impl<'a> Iterator for Lines<'a> {
    type Item = &'a [u8];

    ghost next_gives = { YieldsFirstRef (λ s. lines s.rest.now) };

    ghost remaining = { item_count (λ s. lines s.rest.now) };

    #[tactic(auto, unfolding(crate::specs::Cuts::lines, crate::specs::Cuts::lines_from))]
    fn next(&mut self) -> Option<&'a [u8]> {
        let (line, after) = cut(self.rest)?;
        self.rest = after;
        Some(line)
    }
}
