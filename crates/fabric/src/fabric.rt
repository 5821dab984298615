// The trait of fabrics.
ghost use Rattle.std.specs.Prelude.{◌≡◌, ℕ, ◌^◌, ◌<◌, ◌≤◌};
ghost use Rattle.rules.specs.Fabrics.{Homely, Meaning, OfOneOrTwo};

// A fabric: its cores, its banks, who reaches which, and the homes of objects.
pub trait Fabric {
    // The most banks that a fabric of this sort can have.
    const MAX_BANKS: u32;

    ghost MAX_BANKS: { ℕ };

    // what the fabric means
    ghost means: { Self → Meaning };

    fn cores(&self) -> u32
        ensures { result ≡ (means self.now).cores };

    fn banks(&self) -> u32
        ensures { result ≡ (means self.now).banks };

    fn capacity(&self, bank: u32) -> u32
        ensures { result ≡ (means self.now).capacity bank };

    fn reaches(&self, core: u32, bank: u32) -> bool
        ensures { result ≡ (means self.now).reaches core bank };

    // The set of banks in which an object has its homes, for the set of cores that touch it.
    fn homes(&self, touching: u64) -> u64
        ensures { result ≡ (means self.now).homes touching };

    ghost few: { MAX_BANKS ≤ 16 };

    ghost within: { (f : Self) → (means f).banks ≤ MAX_BANKS };

    ghost fits: { (f : Self) (bank : ℕ) → bank < (means f).banks → (means f).capacity bank < 2 ^ 32 };

    ghost homely: { (f : Self) (touching : ℕ) → OfOneOrTwo (means f).cores touching → Homely (means f) touching };
}
