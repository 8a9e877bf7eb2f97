ghost use Rattle.std.specs.Prelude.{ℕ, List};

/// What a value under the lock stands for.
pub trait Stands {
    type Event;

    type Fixed;

    // The value's list of events.
    ghost list: { Self → List Self.Event };

    // The number of the seat whose event it is.
    ghost author: { Self.Event → ℕ };

    // The value stands for this fixed part.
    ghost stands: { Self → Self.Fixed → Type 0 };

    // The fixed part that is picked when a value comes under the lock.
    ghost picked: { Self → Self.Fixed };
}
