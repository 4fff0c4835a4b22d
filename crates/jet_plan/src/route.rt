// How an edge picks the instance that takes an item.
ghost use Rattle.std.specs.Prelude.{◌≡◌};
ghost use Rattle.jet_plan.specs.Kinds.{is_isolated, is_partitioned, is_broadcast, route_word};

/// How an edge picks the consumer that takes an item. The four ways are those of the edges of a Hazelcast Jet DAG.
#[derive(Clone, Copy, Debug, PartialEq, Eq)]
pub enum Route {
    /// Any one consumer.
    Unicast,
    /// One consumer that a producer always gives to.
    Isolated,
    /// The consumer of the key's partition.
    Partitioned,
    /// Every consumer.
    Broadcast,
}

impl Route {
    // Whether a producer always gives to the same consumer.
    pub(crate) fn is_isolated(self) -> bool
        ensures { result ≡ is_isolated self }
    {
        matches!(self, Route::Isolated)
    }

    // Whether items with the same key go to the same consumer.
    pub(crate) fn is_partitioned(self) -> bool
        ensures { result ≡ is_partitioned self }
    {
        matches!(self, Route::Partitioned)
    }

    // Whether every consumer takes each item.
    pub(crate) fn is_broadcast(self) -> bool
        ensures { result ≡ is_broadcast self }
    {
        matches!(self, Route::Broadcast)
    }

    // The word for it in a job file.
    pub(crate) fn word(self) -> &'static str
        ensures { result.now ≡ route_word self }
    {
        match self {
            Route::Unicast => "unicast",
            Route::Isolated => "isolated",
            Route::Partitioned => "partitioned",
            Route::Broadcast => "broadcast",
        }
    }
}
