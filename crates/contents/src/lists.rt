// Elements stored at the front of a lent list, as far as it reaches.
ghost use Rattle.std.specs.Prelude.{◌≡◌};
ghost use Rattle.std.proofs.lemmas.List.Edits.{sets};

#[tactic(auto, using(crate::proofs::Storing::stored_front))]
pub(crate) fn store<T: Copy>(out: &mut [T], from: &[T])
    ensures { out.new ≡ sets out.old 0 from.now }
{
    let n = out.len().min(from.len());
    out[..n].copy_from_slice(&from[..n]);
}
