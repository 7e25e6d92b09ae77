// A replay as a future.
ghost use Rattle.std.specs.Prelude.{List, ℕ};
ghost use Rattle.quota_stream.specs.Tasks.{Stands, IsAnswer};

use crate::replay_fault::ReplayFault;
use crate::stream_task::StreamTask;
use futures::future::Future;
use futures::task::{Context, Poll};
use rate_types::Word;

impl<'a> Future for StreamTask<'a> {
    type Output = Result<Word, ReplayFault>;

    ghost gives = { λ t answer. (whole bytes : List ℕ) → Stands whole bytes t → IsAnswer whole bytes answer };

    fn poll(&mut self, cx: &mut Context<'_>) -> Poll<Result<Word, ReplayFault>> {
        self.turn();
        if self.is_ended() {
            Poll::Ready(self.take_answer())
        } else {
            cx.yield_now()
        }
    }
}
