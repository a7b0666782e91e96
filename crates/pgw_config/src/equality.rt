//! Equality of configurations.
ghost use Rattle.pgw_wire.specs.Equal.{IsExact};

use crate::config::{
    ChannelBinding, Config, Host, HostAddr, LoadBalanceHosts, SslMode, SslNegotiation,
    TargetSessionAttrs,
};
use pgw_types::address::Address;
use pgw_wire::equality;

/// Two values are equal exactly where they are the same.
pub fn equality_is_exact()
    ensures host { IsExact ⟦<Host as PartialEq>⟧.eq }
    ensures host_addr { IsExact ⟦<HostAddr as PartialEq>⟧.eq }
    ensures address { IsExact ⟦<Address as PartialEq>⟧.eq }
    ensures ssl_mode { IsExact ⟦<SslMode as PartialEq>⟧.eq }
    ensures ssl_negotiation { IsExact ⟦<SslNegotiation as PartialEq>⟧.eq }
    ensures target_session_attrs { IsExact ⟦<TargetSessionAttrs as PartialEq>⟧.eq }
    ensures channel_binding { IsExact ⟦<ChannelBinding as PartialEq>⟧.eq }
    ensures load_balance_hosts { IsExact ⟦<LoadBalanceHosts as PartialEq>⟧.eq }
    ensures config { IsExact ⟦<Config as PartialEq>⟧.eq }
{
    equality::equality_is_exact();
}
