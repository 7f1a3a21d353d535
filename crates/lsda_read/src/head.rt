// What a head says.
ghost use Rattle.std.specs.Prelude.{◌≡◌, ◌≤◌, ◌<◌, ◌^◌, Some};
ghost use Rattle.eh_bytes.specs.Encoded.{encoding_format, format_size};

/// Where the types lie, and how they are spelled.
#[derive(Clone, Copy, Drop)]
pub struct Types {
    pub base: u128,
    pub encoding: u8,
    pub size: u8,
    pub ghost reach: { base < 2 ^ 65 },
    pub ghost sized: { format_size (encoding_format encoding) ≡ Some size },
    pub ghost small: { size ≤ 8 },
}

/// What the head says; places are those of the segment's bytes.
#[derive(Clone, Copy, Drop)]
pub struct Head {
    pub pads_from: u64,
    pub types: Option<Types>,
    pub site_encoding: u8,
    pub sites_at: usize,
    pub actions_at: u128,
    pub ghost reach: { actions_at < 2 ^ 65 },
    pub ghost order: { sites_at ≤ actions_at },
}
