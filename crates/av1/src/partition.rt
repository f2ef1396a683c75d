ghost use Rattle.std.specs.Prelude.{◌≡◌, ◌<◌, is_some, IfSome, nat_lt};
ghost use Rattle.av1.specs.Partitions.{number};

/// How a block is divided, in the order of the standard's numbers.
#[derive(Clone, Copy, PartialEq, Debug)]
pub enum PartitionType {
    PARTITION_NONE,
    PARTITION_HORZ,
    PARTITION_VERT,
    PARTITION_SPLIT,
    PARTITION_HORZ_A,
    PARTITION_HORZ_B,
    PARTITION_VERT_A,
    PARTITION_VERT_B,
    PARTITION_HORZ_4,
    PARTITION_VERT_4,
}

impl PartitionType {
    /// The standard's number.
    pub fn number(self) -> usize
        ensures value { result ≡ number self }
        ensures most { result < 10 }
    {
        self as usize
    }

    /// The partition of this number.
    pub fn from_number(n: usize) -> Option<PartitionType>
        ensures listed { is_some result ≡ nat_lt n 10 }
        ensures number { IfSome result (λ p. number p ≡ n) }
    {
        match n {
            0 => Some(PartitionType::PARTITION_NONE),
            1 => Some(PartitionType::PARTITION_HORZ),
            2 => Some(PartitionType::PARTITION_VERT),
            3 => Some(PartitionType::PARTITION_SPLIT),
            4 => Some(PartitionType::PARTITION_HORZ_A),
            5 => Some(PartitionType::PARTITION_HORZ_B),
            6 => Some(PartitionType::PARTITION_VERT_A),
            7 => Some(PartitionType::PARTITION_VERT_B),
            8 => Some(PartitionType::PARTITION_HORZ_4),
            9 => Some(PartitionType::PARTITION_VERT_4),
            _ => None,
        }
    }
}
