// The partition of a key: every instance of a producer sends a key's items to the same instance of a consumer.
ghost use Rattle.std.specs.Prelude.{◌≡◌, ◌<◌};
ghost use Rattle.jet_items.specs.Partition.{key_hash, key_partition};

use crate::Key;

/// The partition of a key, from 0 to 270. 271 is the number of partitions of Hazelcast, and a prime, so that it shares no
/// factor with the number of members or instances. It takes some 6 instructions a byte and 20 more: one multiplication for
/// the remainder, and none for a byte.
pub fn partition_of(key: &Key) -> u32
    ensures partition { result ≡ key_partition key.now }
    ensures bound { result < 271 }
{
    hash_of(key.bytes()) % 271
}

fn hash_of(bytes: &[u8]) -> u32
    ensures { result ≡ key_hash bytes.now }
{
    bytes.iter().fold(
        0u32,
        |hash, byte| hash.wrapping_mul(31).wrapping_add(u32::from(*byte)),
    )
}
