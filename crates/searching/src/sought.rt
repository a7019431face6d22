// A label that is looked for, and its key.
ghost use Rattle.std.specs.Prelude.{◌≡◌};
ghost use Rattle.matching.specs.Reading.{compared};
ghost use Rattle.order.specs.Order.{key as key_of};

#[derive(Clone, Copy)]
pub struct Sought<'a> {
    pub label: &'a [u8],
    pub key: u32,
    pub ghost keyed: { key ≡ key_of (compared label.now) },
}
