// How often one word is repeated at the front of others (document 01, "Blocks and the rule stream", item 5: a term under stars is spelled by their
// codes before it, and they are counted instead of descended into).

ghost use Rattle.std.specs.Prelude.{◌≡◌};
ghost use Rattle.words.specs.Repeats.{leading};

/// How many words at the front are w.
pub fn leading(s: &[u16], w: usize) -> usize
    ensures { result ≡ leading w s.now }
{
    s.iter().take_while(|&&x| x as usize == w).count()
}
