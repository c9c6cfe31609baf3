ghost use Rattle.std.specs.Prelude.{◌≡◌, ℕ, Bool, true, Some, Option};

// A kind of clearance. Each clearance has one number that stands for it, `covers` is a partial order, and the meet of two clearances is the
// greatest that both cover.
pub trait Clearance: Copy {
    // The number that stands for a clearance.
    ghost number_of: { Self → ℕ };

    // The clearance that a number stands for, if it stands for one.
    ghost of_number: { ℕ → Option Self };

    // Whether the first clearance allows all that the second allows.
    ghost covers: { Self → Self → Bool };

    // The greatest clearance that both cover.
    ghost meet: { Self → Self → Self };

    // The two conversions are the trait's own: `TryFrom<u32>` and `Into<u32>` promise what each kind's own impl says, so that each kind would
    // write two impls more, and prove two laws more that tie them to the two members above.
    fn of(number: u32) -> Option<Self>
        ensures { result ≡ of_number number };

    fn number(self) -> u32
        ensures { result ≡ number_of self };

    // Not `PartialOrd`, whose laws are about a comparison: here they are about this call, together with those of the meet.
    fn covers(self, other: Self) -> bool
        ensures { result ≡ covers self other };

    fn meet(self, other: Self) -> Self
        ensures { result ≡ meet self other };

    // Numbers and clearances stand for each other, one to one.
    ghost back: { (x : Self) → of_number (number_of x) ≡ Some x };

    ghost forth: { (n : ℕ) (x : Self) → of_number n ≡ Some x → number_of x ≡ n };

    // `covers` is a partial order.
    ghost reflexive: { (x : Self) → covers x x ≡ true };

    ghost antisymmetric: { (x y : Self) → covers x y ≡ true → covers y x ≡ true → x ≡ y };

    ghost transitive: { (x y z : Self) → covers x y ≡ true → covers y z ≡ true → covers x z ≡ true };

    // Both cover the meet, and the meet covers all that both cover.
    ghost left: { (x y : Self) → covers x (meet x y) ≡ true };

    ghost right: { (x y : Self) → covers y (meet x y) ≡ true };

    ghost greatest: { (x y z : Self) → covers x z ≡ true → covers y z ≡ true → covers (meet x y) z ≡ true };
}
