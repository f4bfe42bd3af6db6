ghost use Rattle.tasks.specs.Kinds.{either_ticket, either_acts};
ghost use Rattle.tasks.specs.declared.either.Either.TheVariants.{Left, Right};
ghost use Rattle.tasks.specs.EitherFutureLemmas.{left_pending, right_pending, left_ready, right_ready};
ghost use Rattle.std.proofs.Common.{sym, ap, ◌∙◌};

use crate::future::Future;
use crate::poll::Poll;
use crate::ticket::Ticketed;

// A task, or an output, of one of two kinds, so that a set can hold both side by side.
#[derive(Clone, Copy, PartialEq, Debug)]
pub enum Either<A, B> {
    Left(A),
    Right(B),
}

impl<A: Ticketed, B: Ticketed> Ticketed for Either<A, B> {
    ghost bearing = { either_ticket A.Ticketed.bearing B.Ticketed.bearing };

    fn ticket(&self) -> (u32, u32) {
        match self {
            Either::Left(a) => a.ticket(),
            Either::Right(b) => b.ticket(),
        }
    }
}

// The closures in `poll` name their variants: a variant as a function is not covered there.
impl<F: Future, G: Future> Future for Either<F, G> {
    type Output = Either<F::Output, G::Output>;

    ghost acts = { either_acts F.Future.acts G.Future.acts };

    ghost pending_keeps_the_ticket = { elim [
      | Left x ↦ λ post e. F.Future.pending_keeps_the_ticket x post (left_pending (F.Future.acts.answers x post) e)
      | Right y ↦ λ post e. G.Future.pending_keeps_the_ticket y post (right_pending (G.Future.acts.answers y post) e)
    ] };

    ghost output_bears_the_ticket = { elim [
      | Left x ↦
          λ post o e.
          let r = left_ready (F.Future.acts.answers x post) o e in
          ap (either_ticket F.Output.Ticketed.bearing G.Output.Ticketed.bearing) (sym r.1.1) ∙ F.Future.output_bears_the_ticket x post r.0 r.1.0
      | Right y ↦
          λ post o e.
          let r = right_ready (G.Future.acts.answers y post) o e in
          ap (either_ticket F.Output.Ticketed.bearing G.Output.Ticketed.bearing) (sym r.1.1) ∙ G.Future.output_bears_the_ticket y post r.0 r.1.0
    ] };

    fn poll(&mut self, post: &[u64]) -> (bool, Poll<Either<F::Output, G::Output>>) {
        match self {
            Either::Left(f) => {
                let (woken, poll) = f.poll(post);
                (woken, poll.map(|x| Either::Left(x)))
            }
            Either::Right(g) => {
                let (woken, poll) = g.poll(post);
                (woken, poll.map(|x| Either::Right(x)))
            }
        }
    }
}
