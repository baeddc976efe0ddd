ghost use Rattle.std.specs.Prelude.{◌≡◌, ◌≢◌, ◌↔◌, ℕ, [], All, IsSome, slice_get, Some};
ghost use Rattle.pw_class.specs.Queue.{Queue, taken};
ghost use Rattle.pw_class.specs.Taking.{IsFirstFree};
ghost use Rattle.pw_class.specs.declared.request.Request.{Request};
ghost use Rattle.pw_class.specs.declared.request.Taken.TheVariants as gives;

/// What `take` answers: nothing exactly where no request waits; that none is free exactly where one waits and every
/// process is busy; and else the first waiting request, for the free process of smallest number.
pub fn take_laws()
    ensures empty { (queue : Queue) → (taken queue ≡ gives.Empty) ↔ (queue.waiting ≡ []) }
    ensures none_free { (queue : Queue) → (taken queue ≡ gives.NoneFree)
        ↔ ((queue.waiting ≢ []) × All IsSome queue.busy) }
    ensures got { (queue : Queue) (process : ℕ) (request : Request) → taken queue ≡ gives.Got process request
        → (slice_get queue.waiting 0 ≡ Some request) × IsFirstFree queue process }
{}
