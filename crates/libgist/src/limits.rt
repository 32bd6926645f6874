ghost use Rattle.std.specs.Prelude.{◌≡◌};
ghost use Rattle.libgist.specs.Configs.{config_of, map_config_of};

use change_list::Config;
use map::MapConfig;

/// The limits of a store, in the layout that C writes.
#[repr(C)]
#[derive(Drop)]
pub struct Limits {
    /// How many entries a page may have: 4 to 64.
    pub fan: u32,
    /// The least number of entries on each side of a split: 2 to half of `fan`.
    pub least: u32,
    /// How many pages there may be: 1 to 65,536.
    pub pages: u32,
    /// How many commits there may be: 1 to 16,777,216.
    pub commits: u32,
}

/// The same limits as a `Config`.
pub fn config(limits: &Limits) -> Config
    ensures { result ≡ config_of limits.now }
{
    Config {
        fan: limits.fan,
        least: limits.least,
        pages: limits.pages,
        commits: limits.commits,
    }
}

/// The limits of a map, in the layout that C writes.
#[repr(C)]
#[derive(Drop)]
pub struct MapLimits {
    /// Those of each store that it is kept in.
    pub limits: Limits,
    /// How many of its last changes it keeps at least: at most a quarter of the commits.
    pub history: u32,
    /// Tells maps apart.
    pub identity: u64,
}

/// The same limits as a `MapConfig`.
pub fn map_config(limits: &MapLimits) -> MapConfig
    ensures { result ≡ map_config_of limits.now }
{
    MapConfig {
        store: config(&limits.limits),
        history: limits.history,
        identity: limits.identity,
    }
}
