//! Tenant files. The salts and passwords join to "abc" each, and the digests are SHA-256 of "abc", FIPS 180-4's
//! first example.

/// Three tenants: ann with the password "bc", ben with "c", cap with "abc".
pub const THREE: &str = "[[tenant]]
name = \"ann\"
salt = \"61\"
digest = \"ba7816bf8f01cfea414140de5dae2223b00361a396177a9cb410ff61f20015ad\"
quota = 1000000
[[tenant]]
name = \"ben\"
salt = \"6162\"
digest = \"ba7816bf8f01cfea414140de5dae2223b00361a396177a9cb410ff61f20015ad\"
quota = 1000000
[[tenant]]
name = \"cap\"
salt = \"\"
digest = \"ba7816bf8f01cfea414140de5dae2223b00361a396177a9cb410ff61f20015ad\"
quota = 100
";

/// The quota of ann and ben.
pub const QUOTA: u64 = 1_000_000;

/// The quota of cap.
pub const SMALL_QUOTA: u64 = 100;

/// One of the three tenants, with a quota that nothing reaches.
pub const AMPLE: &str = "[[tenant]]
name = \"ann\"
salt = \"61\"
digest = \"ba7816bf8f01cfea414140de5dae2223b00361a396177a9cb410ff61f20015ad\"
quota = 9223372036854775807
";

/// The three tenants, with quotas that nothing reaches.
pub const AMPLE_THREE: &str = "[[tenant]]
name = \"ann\"
salt = \"61\"
digest = \"ba7816bf8f01cfea414140de5dae2223b00361a396177a9cb410ff61f20015ad\"
quota = 9223372036854775807
[[tenant]]
name = \"ben\"
salt = \"6162\"
digest = \"ba7816bf8f01cfea414140de5dae2223b00361a396177a9cb410ff61f20015ad\"
quota = 9223372036854775807
[[tenant]]
name = \"cap\"
salt = \"\"
digest = \"ba7816bf8f01cfea414140de5dae2223b00361a396177a9cb410ff61f20015ad\"
quota = 9223372036854775807
";

/// One of the three tenants, with a quota of ten million bytes.
pub const TEN_MILLION: &str = "[[tenant]]
name = \"ann\"
salt = \"61\"
digest = \"ba7816bf8f01cfea414140de5dae2223b00361a396177a9cb410ff61f20015ad\"
quota = 10000000
";

/// Another tenant, and then ann, with the entry that she has among the three.
pub const OTHERS: &str = "[[tenant]]
name = \"zoe\"
salt = \"\"
digest = \"ba7816bf8f01cfea414140de5dae2223b00361a396177a9cb410ff61f20015ad\"
quota = 7
[[tenant]]
name = \"ann\"
salt = \"61\"
digest = \"ba7816bf8f01cfea414140de5dae2223b00361a396177a9cb410ff61f20015ad\"
quota = 1000000
";
