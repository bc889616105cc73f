// An image as it is read: its bytes with the places of the fields.

#![tactic(auto)]

ghost use Rattle.std.specs.Prelude.{◌≡◌};
ghost use Rattle.calls.specs.ImageRead.{layout_of};
ghost use Rattle.image.specs.Loading.{Small, Named};

// The bytes of an image, and where their length fields put the fields.
#[derive(Clone, Copy)]
pub struct Image<'a> {
    pub bytes: &'a [u8],
    pub places: calls::ImageLayout,
    ghost laid: { places ≡ layout_of bytes.now },
    // Each length field is bounded, so no sum of places overflows.
    ghost small: { Small places },
}

// The bytes of an image whose fields lie within them, and whose set name is no longer than one may be.
#[derive(Clone, Copy)]
pub struct ImageFields<'a> {
    pub bytes: &'a [u8],
    pub places: calls::ImageLayout,
    ghost named: { Named bytes.now places },
}
