//! Where a command descriptor block has DPO and FUA, its group number and its control byte.

ghost use Rattle.std.specs.Prelude.{◌≡◌, ◌<◌, ◌≤◌, length, true};
ghost use Rattle.pi_blocks.specs.Marks.{AreBehind, AreInside, marked, marks_fit, places_for, without_marks};
ghost use Rattle.pi_blocks.specs.Marks.{part, part_at, put, put_part};

/// The bits of a byte that carry one field.
#[derive(Clone, Copy, Debug)]
pub(crate) enum Bits {
    /// None: the form has no such field.
    Absent,
    /// Bit 4.
    Dpo,
    /// Bits 4 and 3.
    DpoAndFua,
    /// Bits 4 to 0.
    Group,
    /// All eight.
    Control,
}

impl Bits {
    /// The value of these bits, at their places.
    pub(crate) fn part(self, byte: u32) -> u32
        ensures { result ≡ part self byte }
    {
        match self {
            Bits::Absent => 0,
            Bits::Dpo => byte % 32 / 16 * 16,
            Bits::DpoAndFua => byte % 32 / 8 * 8,
            Bits::Group => byte % 32,
            Bits::Control => byte % 256,
        }
    }

    fn put(self, byte: u8, value: u32) -> u8
        requires { part self value ≡ value }
        ensures { result ≡ put_part self byte value }
    {
        let byte = u32::from(byte);
        match self {
            Bits::Absent => byte as u8,
            Bits::Dpo => (byte - byte % 32 / 16 * 16 + value) as u8,
            Bits::DpoAndFua => (byte - byte % 32 / 8 * 8 + value) as u8,
            Bits::Group => (byte - byte % 32 + value) as u8,
            Bits::Control => value as u8,
        }
    }
}

/// One field's place.
#[derive(Clone, Copy, Debug)]
pub(crate) struct Place {
    pub(crate) at: usize,
    pub(crate) bits: Bits,
}

impl Place {
    /// Takes the field out of bytes and leaves 0 in its place.
    pub(crate) fn take(self, bytes: &mut [u8]) -> u32
        requires { self.at < length bytes.old }
        ensures value { result ≡ part_at self bytes.old }
        ensures fits { part self.bits result ≡ result }
        ensures cleared { bytes.new ≡ put self 0 bytes.old }
        ensures back { put self result bytes.new ≡ bytes.old }
    {
        let byte = bytes[self.at];
        bytes[self.at] = self.bits.put(byte, 0);
        self.bits.part(u32::from(byte))
    }

    /// Writes the field.
    pub(crate) fn write(self, bytes: &mut [u8], value: u32)
        requires inside { self.at < length bytes.old }
        requires fits { part self.bits value ≡ value }
        ensures { bytes.new ≡ put self value bytes.old }
    {
        bytes[self.at] = self.bits.put(bytes[self.at], value);
    }
}

/// The places of the three fields.
#[derive(Clone, Copy, Debug)]
pub(crate) struct Places {
    pub(crate) flags: Place,
    pub(crate) group: Place,
    pub(crate) control: Place,
}

impl Places {
    /// The places in a command of an operation code and so many bytes (SBC-3, 5.11 to 5.35).
    pub(crate) fn of(op: u8, len: usize) -> Places
        ensures value { result ≡ places_for op len }
        ensures inside { 10 ≤ len → AreInside result len }
        ensures behind { AreBehind result }
    {
        let (flags, group) = match op {
            0x2F | 0x8F => (Bits::Dpo, Bits::Group),
            0x9E => (Bits::Absent, Bits::Absent),
            _ => (Bits::DpoAndFua, Bits::Group),
        };
        let (flags_at, group_at, control_at) = match len {
            10 => (1, 6, 9),
            16 => (1, 14, 15),
            _ => (10, 6, 1),
        };
        Places {
            flags: Place {
                at: flags_at,
                bits: flags,
            },
            group: Place {
                at: group_at,
                bits: group,
            },
            control: Place {
                at: control_at,
                bits: Bits::Control,
            },
        }
    }

    /// Whether these fit their bits.
    pub(crate) fn fit(self, flags: u32, group: u32, control: u32) -> bool
        ensures { result ≡ marks_fit self flags group control }
    {
        self.flags.bits.part(flags) == flags
            && self.group.bits.part(group) == group
            && self.control.bits.part(control) == control
    }

    /// Writes the three fields.
    pub(crate) fn write(self, bytes: &mut [u8], flags: u32, group: u32, control: u32)
        requires inside { AreInside self (length bytes.old) }
        requires fits { marks_fit self flags group control ≡ true }
        ensures { bytes.new ≡ marked self flags group control bytes.old }
    {
        self.control.write(bytes, control);
        self.group.write(bytes, group);
        self.flags.write(bytes, flags);
    }

    /// Takes the three fields out of bytes and leaves 0 in their places.
    pub(crate) fn take(self, bytes: &mut [u8]) -> (u32, u32, u32)
        requires { AreInside self (length bytes.old) }
        ensures flags { result.0 ≡ part_at self.flags bytes.old }
        ensures group { result.1 ≡ part_at self.group (put self.flags 0 bytes.old) }
        ensures control { result.2 ≡ part_at self.control (put self.group 0 (put self.flags 0 bytes.old)) }
        ensures fit { marks_fit self result.0 result.1 result.2 ≡ true }
        ensures cleared { bytes.new ≡ without_marks self bytes.old }
        ensures back { marked self result.0 result.1 result.2 bytes.new ≡ bytes.old }
    {
        let flags = self.flags.take(bytes);
        let group = self.group.take(bytes);
        let control = self.control.take(bytes);
        (flags, group, control)
    }
}
