//! The word of a floor: 0 if there is none, and otherwise the score plus 2^32.

ghost use Rattle.std.specs.Prelude.{◌≡◌, ◌+◌, ◌^◌, ◌≤◌};
ghost use Rattle.ghcn_fields.specs.Floor.{IsScore};
ghost use Rattle.rank_board.specs.Word.{score_word, floor_of};

const OFFSET: i64 = 1 << 32;

pub(crate) fn word_of_score(score: i64) -> u64
    requires { IsScore score }
    ensures { result ≡ score_word score }
{
    (score + OFFSET) as u64
}

pub(crate) fn floor_of_word(word: u64) -> Option<i64>
    requires { word ≤ 2 ^ 32 + 2 ^ 31 }
    ensures { result ≡ floor_of word }
{
    if word == 0 {
        None
    } else {
        Some(word as i64 - OFFSET)
    }
}
