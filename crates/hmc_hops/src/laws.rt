//! The laws of moves, for each map of routes.

ghost use Rattle.std.specs.Prelude.{ℕ, suc, ◌≡◌, ◌≤◌, ◌<◌, ◌+◌, Bool, true, Some, List, [], ◌∷◌, ◌++◌, length, drop, All};
ghost use Rattle.std.specs.List.{filter_map};
ghost use Rattle.hmc_codes.specs.Graph.{GraphFields};
ghost use Rattle.hmc_routes.specs.Parted.{InOnePart};
ghost use Rattle.hmc_routes.specs.Directions.{direction_from};
ghost use Rattle.hmc_routes.specs.Route.{route_from_cube, route_from_host};
ghost use Rattle.hmc_routes.specs.Route.Goal.{ToHost, ToCube};
ghost use Rattle.hmc_routes.specs.WellFormed.{IsGraph};
ghost use Rattle.hmc_hops.specs.CutThrough.{HasFreeWay, MayForward, IsForwarded};
ghost use Rattle.hmc_hops.specs.Delivered.{DeliveredInOrder, IsStranger, NoneOfRequests, NoneOfAnswers, IsDrained, AllServed, request_leg, request_route, answer_leg, answer_route};
ghost use Rattle.hmc_hops.specs.Flows.{requests_to, answers_to};
ghost use Rattle.hmc_hops.specs.GraphMap.{map_of};
ghost use Rattle.hmc_hops.specs.Map.{Map, IsMap, hops_at};
ghost use Rattle.hmc_hops.specs.Map.End.{Host};
ghost use Rattle.hmc_hops.specs.Moves.{Move, May, MayAll, leaves, contents, without_if, one_if};
ghost use Rattle.hmc_hops.specs.Moves.Move.{Goes};
ghost use Rattle.hmc_hops.specs.OnWay.{IsOnWay, IsAnswerFor};
ghost use Rattle.hmc_hops.specs.Order.{InOrder, IsQueue, IsStrict};
ghost use Rattle.hmc_hops.specs.Packets.{Packet, Spot};
ghost use Rattle.hmc_hops.specs.Queues.{QueueId, next_queue};
ghost use Rattle.hmc_hops.specs.Queues.QueueId.{Output, Line, Buffer};
ghost use Rattle.hmc_hops.specs.Tags.{KeepsTags, HasPhase, IsAnswered, asked_under, answers_under};

/// What a host gives to a unit is executed there, and what is lifted in a cube is taken by its
/// host, in order; what isn't yet waits on the route.
pub fn delivers_in_order()
    ensures { (m : Map) (past : List Move) → IsMap m → MayAll m past → DeliveredInOrder m past }
{}

/// Between a host and a cube of which one isn't there, no packet that counts goes.
pub fn carries_no_strangers()
    ensures requests { (m : Map) (past : List Move) (h c : ℕ) (s : Spot) → IsMap m →
        MayAll m past → IsStranger m h c → NoneOfRequests m past h c s }
    ensures answers { (m : Map) (past : List Move) (c h : ℕ) → IsMap m → MayAll m past →
        IsStranger m h c → NoneOfAnswers m past c h }
{}

/// Where no packet is on its way, all requests that aren't poisoned were executed, and all answers
/// that were lifted were taken.
pub fn serves_all()
    ensures { (m : Map) (past : List Move) → IsMap m → MayAll m past → IsDrained m past →
        AllServed m past }
{}

/// A packet that counts is only in queues on its own way, and a host's buffer holds answers to it
/// alone. So a queue of a cube holds only what the cube can use.
pub fn keeps_routes()
    ensures on_way { (m : Map) (past : List Move) (queue : QueueId) → IsMap m → MayAll m past →
        All (IsOnWay m queue) (contents m past queue) }
    ensures at_host { (m : Map) (past : List Move) (d h : ℕ) → IsMap m → MayAll m past →
        m.end_of d ≡ Host h → All (IsAnswerFor h) (contents m past (Buffer d)) }
{}

/// What of a flow enters the output queue of a direction of its route comes from the buffer of the
/// direction before. So no other port of the cube, and no unit of it, adds to the flow.
pub fn feeds_from_one_buffer()
    ensures requests { (m : Map) (past : List Move) (h c i d e n : ℕ) (s : Spot) (from : QueueId)
        (x : Packet) → IsMap m → MayAll m past →
        request_leg m h c i ≡ Some d → request_leg m h c (suc i) ≡ Some e →
        May m past (Goes from n x) → (requests_to h c s).mine x ≡ true →
        next_queue m from x ≡ Some (Output e) → from ≡ Buffer d }
    ensures answers { (m : Map) (past : List Move) (c h i d e n : ℕ) (from : QueueId)
        (x : Packet) → IsMap m → MayAll m past →
        answer_leg m c h i ≡ Some d → answer_leg m c h (suc i) ≡ Some e →
        May m past (Goes from n x) → (answers_to c h).mine x ≡ true →
        next_queue m from x ≡ Some (Output e) → from ≡ Buffer d }
{}

/// Where hosts keep to their tags, a tag is free, or one packet of the whole network has it: its
/// request, and then the answer.
pub fn answers_each_tag()
    ensures phase { (m : Map) (past : List Move) (h t : ℕ) → IsMap m → MayAll m past →
        KeepsTags m past → HasPhase m h t past }
    ensures answered { (m : Map) (past : List Move) (h t : ℕ) → IsMap m → MayAll m past →
        KeepsTags m past → IsAnswered m h t past }

    // Where no packet is on its way, all that was asked was answered.
    ensures all { (m : Map) (past : List Move) (h t : ℕ) → IsMap m → MayAll m past →
        KeepsTags m past → IsDrained m past →
        length (answers_under m h t past) ≡ length (asked_under h t past) }
{}

/// Each queue except output queues is a list, first in and first out. So the packet that a link
/// accepts next is the front of its line, and the answers lifted from a queue are the first that
/// entered it.
pub fn keeps_order()
    ensures { (m : Map) (past : List Move) (queue : QueueId) → IsStrict queue → MayAll m past →
        InOrder past → IsQueue m past queue }
{}

/// A packet that is cut through is a list's next packet all the same. The way of a packet is free
/// where the buffer and the output queue are empty, and stays so until a packet leaves the line.
/// The landing that accepts it then is three moves.
pub fn forwards_in_order()
    ensures forward { (m : Map) (past : List Move) (e d : ℕ) (x : Packet) → MayAll m past →
        MayForward m past e d x → IsForwarded m past e d x }
    ensures opens { (m : Map) (past : List Move) (e d : ℕ) → contents m past (Buffer e) ≡ [] →
        contents m past (Output d) ≡ [] → HasFreeWay m past e d }
    ensures stays { (m : Map) (move : Move) (past : List Move) (e d : ℕ) → IsMap m →
        MayAll m past → May m past move → leaves move (Line e) ≡ [] →
        HasFreeWay m past e d → HasFreeWay m (move ∷ past) e d }
{}

/// The content of a queue, as journals define it, changes as by moves of the front: it is the list
/// of what entered, without as many packets as left.
pub fn moves_fronts()
    ensures { (goes : Bool) (left : ℕ) (entered enter : List Packet) → left ≤ length entered →
        (goes ≡ true → left < length entered) →
        drop (one_if goes + left) (entered ++ enter)
        ≡ without_if goes 0 (drop left entered) ++ enter }
{}

/// The routes of a graph in one part are a map. A route from a host has at most as many directions
/// after the first as there are cubes, and one to a host has fewer.
pub fn maps_graphs()
    ensures map { (graph : GraphFields) → IsGraph graph → InOnePart graph → IsMap (map_of graph) }
    ensures there { (graph : GraphFields) (h c : ℕ) → IsGraph graph → InOnePart graph →
        (map_of graph).is_goal (ToHost h) ≡ true → (map_of graph).is_goal (ToCube c) ≡ true →
        hops_at (map_of graph) (ToCube c) ((map_of graph).end_of ((map_of graph).from_host h))
        ≤ graph.cubes }
    ensures back { (graph : GraphFields) (h c : ℕ) → IsGraph graph → InOnePart graph →
        (map_of graph).is_goal (ToHost h) ≡ true → (map_of graph).is_goal (ToCube c) ≡ true →
        (map_of graph).hops (ToHost h) c < graph.cubes }
{}

/// The directions of the map's routes are those that start at the places which the graph's routes
/// name: the host, and the ports that a packet leaves through.
pub fn follows_routes()
    ensures requests { (graph : GraphFields) (h c : ℕ) → IsGraph graph →
        (map_of graph).is_goal (ToHost h) ≡ true →
        request_route (map_of graph) h c graph.cubes
        ≡ filter_map (direction_from graph.joins) (route_from_host graph (ToCube c) h) }
    ensures answers { (graph : GraphFields) (c h more : ℕ) → IsGraph graph →
        graph.cubes ≡ suc more →
        answer_route (map_of graph) c h more
        ≡ filter_map (direction_from graph.joins) (route_from_cube graph (ToHost h) c) }
{}
