// The ranges of settings, lags and window sizes.
ghost use Rattle.std.specs.Prelude.{◌≡◌, ◌<◌, ◌&&◌, length, position, IfSome, int_le};
ghost use Rattle.jet_plan.specs.SettingRanges.{wrong_setting, has_wrong_lag, wrong_sizes, wrong_size, wrong_limit, wrong_grant, wrong_sizes_from};

use crate::{Kind, SettingName, Settings, Vertex};
use jet_policy::{PolicyFault, WinPolicy};

fn is_between(z: i64, least: i64, most: i64) -> bool
    ensures { result ≡ (int_le least z && int_le z most) }
{
    least <= z && z <= most
}

/// The first setting that is out of its range.
pub fn first_wrong_setting(settings: &Settings) -> Option<SettingName>
    ensures { result ≡ wrong_setting settings.now }
{
    wrong_size(settings)
        .or(wrong_limit(settings))
        .or(wrong_grant(settings))
}

// Of the settings of members, rings and packets the first that is out of its range.
fn wrong_size(settings: &Settings) -> Option<SettingName>
    ensures { result ≡ wrong_size settings.now }
{
    if !is_between(settings.workers, 1, 8) {
        Some(SettingName::Workers)
    } else if !is_between(settings.members, 1, 4) {
        Some(SettingName::Members)
    } else if !is_between(settings.ring, 2, 65_536) {
        Some(SettingName::Ring)
    } else if !is_between(settings.packet, 256, 65_536) {
        Some(SettingName::Packet)
    } else {
        None
    }
}

// Of the other settings the first that is out of its range.
fn wrong_limit(settings: &Settings) -> Option<SettingName>
    ensures { result ≡ wrong_limit settings.now }
{
    if !is_between(settings.window, 1, 16_777_216) {
        Some(SettingName::Window)
    } else if !is_between(settings.turns, 1, 1024) {
        Some(SettingName::Turns)
    } else if !is_between(settings.ahead, 0, 1_000_000_000_000_000) {
        Some(SettingName::Ahead)
    } else if !is_between(settings.lines, 1, 4_294_967_294) {
        Some(SettingName::Lines)
    } else {
        None
    }
}

// Of the settings of what a link grants the first that is out of its range.
fn wrong_grant(settings: &Settings) -> Option<SettingName>
    ensures { result ≡ wrong_grant settings.now }
{
    if !(settings.window <= settings.peak && settings.peak <= 16_777_216) {
        Some(SettingName::Peak)
    } else if !is_between(settings.multiplier, 1, 16) {
        Some(SettingName::Multiplier)
    } else if !is_between(settings.period, 1, 1024) {
        Some(SettingName::Period)
    } else {
        None
    }
}

fn has_wrong_lag(kind: &Kind) -> bool
    ensures { result ≡ has_wrong_lag kind.now }
{
    match kind {
        Kind::Source { lag, .. } => !is_between(*lag, 0, 1_000_000_000_000_000),
        _ => false,
    }
}

/// The number of the first source whose lag is outside 0 to 10^15.
pub fn first_wrong_lag(vertices: &[Vertex]) -> Option<usize>
    ensures bound { IfSome result (λ i. i < length vertices.now) }
    ensures value { result ≡ position (λ v. has_wrong_lag v.kind) vertices.now }
{
    vertices.iter().position(|v| has_wrong_lag(&v.kind))
}

fn wrong_sizes(kind: &Kind) -> Option<PolicyFault>
    ensures { result ≡ wrong_sizes kind.now }
{
    match kind {
        Kind::Accumulate { size, slide } => WinPolicy::new(*size, *slide).err(),
        _ => None,
    }
}

/// The first accumulate vertex whose sizes are refused, by its number, and why.
pub fn first_wrong_sizes(vertices: &[Vertex]) -> Option<(usize, PolicyFault)>
    ensures bound { IfSome result (λ p. p.0 < length vertices.now) }
    ensures value { result ≡ wrong_sizes_from 0 vertices.now }
{
    for (i, vertex) in vertices.iter().enumerate() {
        if let Some(why) = wrong_sizes(&vertex.kind) {
            return Some((i, why));
        }
    }
    None
}
