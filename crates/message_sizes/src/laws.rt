ghost use Rattle.message_sizes.specs.Sizes.{RepliesAreAsLong};

/// A Reply is as long whatever request it answers.
#[tactic(auto, using(crate::proofs::ReplyLengths::as_long))]
pub fn replies_are_as_long()
    ensures { RepliesAreAsLong }
{}
