//! Lines of certificates, by increasing ID.

ghost use Rattle.std.specs.Prelude.{◌≡◌, IfOk};
ghost use Rattle.rank_merge.specs.Merged as merged;
ghost use Rattle.rank_merge.specs.Merging as merging;

use ghcn_fields::Memory;
use ghcn_files::StationId;
use rank_papers::Line;

/// Lines by increasing ID. Those with one ID stay in the order in which they came.
pub(crate) fn by_id(mut lines: Vec<Line>) -> Result<Vec<Line>, Memory>
    ensures { IfOk result (λ ordered. ordered.items ≡ merged.by_id lines.items) }
{
    lines.sort_by(|a, b| a.id.cmp(&b.id))?;
    Ok(lines)
}

/// The first ID that two lines have. The lines are in order.
pub(crate) fn twice(lines: &[Line]) -> Option<StationId>
    requires { merged.by_id lines.now ≡ lines.now }
    ensures { result ≡ merging.twice lines.now }
{
    let [_, behind @ ..] = lines else {
        return None;
    };
    let mut pairs = lines.iter().zip(behind.iter());
    let (line, _) = pairs.find(|(line, next)| line.id == next.id)?;
    Some(line.id)
}
